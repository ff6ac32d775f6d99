// What `run` answers, with the number and values of each case (01, "From the input", "From the state").
#![tactic(auto)]

pub mod run;
