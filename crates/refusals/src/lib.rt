// Why texts are refused (01, "From the input"): the number and the offset of a text's refusal, and of two texts which one it falls on; its letter, number and offset as they are told and
// printed.
#![tactic(auto)]

pub mod answer;
pub mod letters;
pub mod refusal;
