// The entries of the resolver as C finds them: each exports the function of the library `bindings` that has its name, and promises what that
// one promises. A slice is passed as a pointer and a number of elements (include/raugvite.h).
#![tactic(auto)]

mod lists;
mod program_runs;
mod sampled;
