// The walk of a job (01, "The walk and what stops it"): "depth first, true branch first, and goes N transitions deep". What the functions come to is
// defined in specs/; proofs/WalkLaws.antt says that it is the walk of semantics/proofs/Backtrack.antt.
#![tactic(auto)]

pub mod back;
pub mod job;
pub mod leaves;
pub mod make;
pub mod walk;
