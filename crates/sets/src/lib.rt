// The set operations (01, "Sets, filling and splitting") over cells: a tree in preorder, one u16 a node. Each function
// is equated with a definition of specs/ for slices of any content; proofs/ says what that is where the cells hold trees.
#![tactic(auto)]

pub mod contraction;
pub mod counter;
pub mod fill;
pub mod tree;
