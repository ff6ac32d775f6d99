// The check of a program's terms and definitions (01, "From the input": 6 to 9; 02, request 1: 13) over stored tokens that the grammar has passed.
// Expressions and the names that a `cons?` binds are checked by `checker`, whose specs/ define what is found.
#![tactic(auto)]

pub mod check_program;
mod check_terms;
