// What `list` answers, with the number and values of each case (01, "From the input", "From the state"); what the text of a listing begins with. Nothing here
// knows the texts or the walk.
#![tactic(auto)]

pub mod heading;
pub mod list;
