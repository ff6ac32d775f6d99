// The sample of a line (02, request 2): its variables filled with new atoms, and the table by which the atoms' names are printed.
#![tactic(auto)]

pub mod fill;
pub mod names;
pub mod number;
