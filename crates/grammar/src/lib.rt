// The grammar (01, "Texts") over stored tokens: 3 to 5. What the texts mean is defined in the crate `language`, and what the functions come to in
// specs/.
#![tactic(auto)]

pub mod definitions;
pub mod jobs;
pub mod marks;
mod readers;
mod terms;
