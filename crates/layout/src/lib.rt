// A job laid out in the heap: the cells of its data, its parts one behind the other, its non-equalities simplified, the first fresh number. What the
// functions come to is defined in specs/; what that means is said in proofs/ of `initial`.
#![tactic(auto)]

mod datum;
pub mod fresh;
pub mod job;
