// Sets of values as expressions with variables (01, "Sets, filling and splitting"; 001, sections 4 to 6): the definitions are in
// specs/, what is proved of them in proofs/. The operations over cells are in the crate `sets`.
#![tactic(auto)]
