// The program linked: made once from the checked tokens, so that whoever runs or walks it searches for no definition, no name and no bracket's
// end. specs/Twins/Code.antt says what a linked token is, specs/Twins/Linking.antt what the functions come to.
#![tactic(auto)]

pub mod code;
mod expression;
mod names;
pub mod program;
mod source;
pub mod terms;
pub mod tokens;
