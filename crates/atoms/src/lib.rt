// `eqa?` over heap, frame and non-equalities (001, figure 10): its two sides, the branches there are, and the transition to each.
// What the functions come to is defined in specs/.
#![tactic(auto)]

pub mod atom;
pub mod choice;
pub mod take;
