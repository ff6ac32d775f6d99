// What is decided of bytes and words (01, "Texts"): the kind of a byte, where a word begins and ends, what it is and how it fits. The kinds,
// words and tokens are defined in the crate `language`, and what the functions over bytes come to in specs/.
#![tactic(auto)]

pub mod bytes;
pub mod cutting;
pub mod fit;
pub mod keys;
pub mod kinds;
mod scan;
