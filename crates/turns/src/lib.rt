// The decisions of a walk, by value (01, "The walk and what stops it"): what it has found, where it stands, what comes next. No storage is here, so
// that the crate is checked in seconds; `walk` does what is decided.
#![tactic(auto)]

pub mod choice;
pub mod found;
pub mod state;
