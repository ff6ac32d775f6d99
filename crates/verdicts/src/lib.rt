// What a check by tokens finds, by value: a fault or none, of two the first, what the parts of a term come to together, and what is decided of a name. They are
// checked in seconds, and `checker`, `programs` and `job_checker` ask them of the tokens.
#![tactic(auto)]

pub mod found;
pub mod names;
