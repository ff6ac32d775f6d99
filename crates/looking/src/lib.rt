// What a `cons?` looks at (001, figure 10), and its branch where that is a pair or an atom already. What the functions come to is defined in specs/; what
// that means is said in proofs/ of `pairs`.
#![tactic(auto)]

pub mod look;
pub mod take;
