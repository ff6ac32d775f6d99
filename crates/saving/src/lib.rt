// Saved configurations, so that a walk which goes back need not work a path out again. What the functions come to is defined in specs/.
#![tactic(auto)]

pub mod head;
pub mod saved;
