// One transition of figure 10 (001) over heap, frame and non-equalities: what a term asks, the branches there are, and the transition to each.
// What the functions come to is defined in specs/; proofs/ShowLaws.antt says that they are the successors of semantics/specs/Trace.antt.
#![tactic(auto)]

pub mod ask;
pub mod take;
