// A text read and checked into lent storage (01, "Texts", "From the input"): what texts mean is defined in the crate `language`,
// and what the functions over storage come to in specs/.
#![tactic(auto)]

mod found;
pub mod read_job;
pub mod read_program;
