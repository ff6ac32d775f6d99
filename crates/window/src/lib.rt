// Bytes, numbers, words and expressions (01, "Printing, and cases") written byte by byte into a window of any length. What the text is, is defined
// over cells in specs/.
#![tactic(auto)]

pub mod digit;
pub mod leaf;
pub mod parts;
pub mod sink;
pub mod tree;
