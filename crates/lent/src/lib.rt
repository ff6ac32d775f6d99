// Storage that is lent for two texts: whether it is long enough, set to nought, and what reading a text into it answers. Nothing is read here, so that the
// crate is checked in seconds.
#![tactic(auto)]

pub mod clear;
pub mod read;
pub mod room;
