// The check of a job (01, "From the input": 10 to 12) over stored tokens, as `checker` has that of a program. What the functions come to is
// in specs/, and that it is the check of the crate `language` in the laws of `syntax`.
#![tactic(auto)]

pub mod check_job;
