// Room for the next transition, and a path worked out again ("however often a path is worked out again"). What the functions come to is defined in
// specs/.
#![tactic(auto)]

pub mod replay;
pub mod room;
