// Grammar and check joined into one verdict for each text, over stored tokens, and where the parts of an accepted text stand. What the texts
// mean is defined in the crate `language`, and what the functions come to in specs/.
#![tactic(auto)]

pub mod ends;
pub mod heads;
pub mod job_ends;
pub mod judge;
pub mod numerals;
