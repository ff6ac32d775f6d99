// The condition `cons?` over heap and frame (001, figure 10): the transitions of its two branches, by what it looks at. What the functions come to is
// defined in specs/; proofs/BranchLaws.antt says that the branches lead to the successors of semantics/specs/Trace.antt.
#![tactic(auto)]

pub mod branch;
pub mod split;
