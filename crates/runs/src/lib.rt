// Runs of one heap of trees in preorder: a part of a tree is a run of cells, and what is written is written at `used` and behind it, so that every
// run below stays as it is. What the functions come to is defined in specs/.
#![tactic(auto)]

pub mod run;
