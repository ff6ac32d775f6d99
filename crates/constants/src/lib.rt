// Constants (001, e/σ of an expression without names is one value): each is laid out in the heap once, and whoever values it gets the range. What the
// functions come to is defined in specs/; proofs/ConstantLaws.antt says what the table holds then.
#![tactic(auto)]

pub mod lay;
pub mod table;
