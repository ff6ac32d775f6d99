// Where a walk stands, and what is used of the heap there: decisions by value. No storage is here, so that the crate is checked in seconds.
#![tactic(auto)]

pub mod position;
pub mod used;
