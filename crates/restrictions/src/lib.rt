// Restrictions over cells (01, "Sets, filling and splitting"): two cells a non-equality, oldest first. Each function is equated with a definition of
// specs/ for slices of any content; proofs/ says what that is where the cells hold a restriction.
#![tactic(auto)]

pub mod failure;
pub mod restriction;
