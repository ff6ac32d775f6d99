// The path of a walk as the trail of its decisions (01, "The walk and what stops it"). What the functions come to is defined in specs/;
// proofs/TrailLaws.antt says that it is the path of semantics/proofs/Backtrack.antt.
#![tactic(auto)]

pub mod trail;
