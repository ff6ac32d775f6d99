// The entries of the resolver for C and Rust: numbers and slices alone. A slice is passed as a pointer and a number of elements. What the
// number of an answer is and what `said` holds beside it is defined in the crate `answers`. A library exports nothing by itself: the static library
// `bindings_c` exports each of these.
#![tactic(auto)]

pub mod lists;
pub mod program_runs;
pub mod sampled;
