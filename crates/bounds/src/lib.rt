// 01's limits, each by value: what a number may be at most, or the number itself. The readers ask here, so that a limit is checked in seconds.
#![tactic(auto)]

pub mod job;
pub mod program;
pub mod text;
pub mod word;
