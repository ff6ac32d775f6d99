// Trees in one heap: a value is a range of it, and what is written is written at `used` and behind it.
//
// Heap, frame and non-equalities are handed on each by itself, here and in the crates above, and not as one struct: a signature shows which of them a function
// reads and which it writes, and most write one or two; of a struct each contract would have to say that the others stay as they are.
#![tactic(auto)]

pub mod apply;
pub mod configuration;
pub mod contract;
pub mod entry;
