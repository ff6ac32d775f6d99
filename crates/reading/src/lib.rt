// Both texts read and checked into lent storage (01, "From the input"), and where their parts stand: what the functions over storage come to is
// defined in specs/.
#![tactic(auto)]

pub mod both;
pub mod stored;
