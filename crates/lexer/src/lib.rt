// From bytes to tokens in storage (01, "Texts"): what the tokens of a text are is defined in the crate `language`, and what the functions
// over cells come to in specs/.
#![tactic(auto)]

pub mod lexer;
pub mod table;
