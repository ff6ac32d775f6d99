// The forward runner (01, "Running forwards") over heap and frame. What the functions come to is defined in specs/; proofs/RunMeans.antt says that it is
// the runner of semantics/specs/Runner.antt.
#![tactic(auto)]

pub mod inputs;
mod named;
mod next;
mod output;
mod run;
mod turn;
