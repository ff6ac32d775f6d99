// What a program means (01, "Running forwards", "The walk and what stops it"; 001, figures 4 and 10): evaluation, tracing and the
// walk are defined in specs/, what is proved of them, demand 3 among it, is in proofs/. The resolver is in the crate `resolve`.
#![tactic(auto)]
