// The values of a linked program's expressions, over heap and frame: a name has the range of its entry, an expression without names its own, what a `cons` makes is
// written behind what is used. What the functions come to is defined in specs/.
#![tactic(auto)]

pub mod names;
pub mod size;
pub mod tokens;
pub mod value;
