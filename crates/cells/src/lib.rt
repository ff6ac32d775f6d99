// Cells, bytes and numbers, for every index and every value: what stands past an end is 0, nothing is stored there, and a part is what there is
// of it.
#![tactic(auto)]

pub mod cell;
pub mod part;
