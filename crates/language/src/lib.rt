// The two texts (01, "Texts", "From the input"): bytes, tokens, grammar and check are defined in specs/, what acceptance gives is
// in proofs/. The readers are in the crates `words`, `lexer`, `grammar`, `checker`, `programs`, `job_checker`, `syntax` and `texts`.
#![tactic(auto)]
