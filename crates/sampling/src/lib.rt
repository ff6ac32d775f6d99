// The sample of one line of a listing as cells (02, request 2), for programs that want no text.
#![tactic(auto)]

pub mod line;
