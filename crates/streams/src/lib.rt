// What programs do with files and streams: a text is read as far as there is room for it, and standard error is told what failed and why.
#![tactic(auto)]

pub mod failure;
pub mod reading;
