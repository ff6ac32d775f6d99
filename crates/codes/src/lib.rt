// What is decided by value of one cell of a heap, of what is known of an entry, and of what became of a run. What the functions come to is defined in specs/.
#![tactic(auto)]

pub mod code;
pub mod known;
pub mod outcome;
