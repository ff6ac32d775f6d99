// The configuration behind the first transition of a walk or a run (001, definition 40; 01, "Running forwards", "The walk and what stops it"):
// the job's trees laid out in the heap, an entry for each, and the inputs' once more as the values of main's parameters. What the functions come
// to is defined in specs/, what that means in proofs/BeginLaws.antt, BeginTexts.antt (a walk) and RunBegins.antt (a run).
#![tactic(auto)]

pub mod begin;
mod trees;
