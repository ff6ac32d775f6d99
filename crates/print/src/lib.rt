// The printed text (01, "Printing, and cases"), from what the entries leave in storage. What the text is, is defined over cells in
// specs/ and over lines and values in the crate `listing`; proofs/ says that they agree.
#![tactic(auto)]

pub mod first;
pub mod list;
pub mod ran;
