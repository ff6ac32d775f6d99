// The printed text of bindings, lines and values (01, "Printing, and cases"), written into a window by the crate `window`. What the text is, is
// defined over cells in specs/.
#![tactic(auto)]

pub mod binding;
pub mod line;
pub mod outcome;
pub mod refusal;
pub mod sample;
