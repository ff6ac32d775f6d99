// What is decided at brackets, by value: where the program `meet` passes one, and how many more may be opened inside it, because of which its reading ends; which one
// closes a part of a text. They are checked in seconds.
#![tactic(auto)]

pub mod depth;
pub mod place;
