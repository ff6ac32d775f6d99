// The check of expressions, of arguments and of the names that a `cons?` binds by their tokens (01, "From the input": 6, 8 and 9; 02, request 1: 13), what
// a check comes to, and the tokens it asks. specs/ define the check of a whole program by position; `programs` goes through its terms and definitions.
#![tactic(auto)]

pub mod check;
pub mod check_expressions;
pub mod places;
