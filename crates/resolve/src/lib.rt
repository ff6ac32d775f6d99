// The two entries of the resolver: `list`, the listing of a program and a job, and `run`, the program run forwards on the job's inputs. What
// they answer and leave in storage is defined in specs/ListAnswer.antt and specs/RunAnswer.antt.
#![tactic(auto)]

pub mod list;
pub mod run;
