// What is decided by value of what a run comes to (01, "Running forwards"), and the cells of its value put into the answer storage. No run is made here, so that the crate is checked in seconds; `forward`
// makes it.
#![tactic(auto)]

pub mod ran;
pub mod writing;
