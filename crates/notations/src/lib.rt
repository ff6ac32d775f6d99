// What the program `limits` decides in the notation of its cases, by value: where a repetition is passed. The writing of a text ends because of it, and it is checked in
// seconds.
#![tactic(auto)]

pub mod repetition;
