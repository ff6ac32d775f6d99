// Calls of a linked program: the values of the arguments, an entry each, and the configuration in the body of what is called. What the functions come to is
// defined in specs/.
#![tactic(auto)]

pub mod arguments;
pub mod call;
