// What is decided by value where an accepted program is linked: where a body, the last definition and its bracket stand, which word is a pair's, how many names are in
// reach. Nothing is stored here, so that the crate is checked in seconds; `linking` stores.
#![tactic(auto)]

pub mod link;
