// The printed text of an answer (01, "Printing, and cases"): defined in specs/, tried on the cases of 01 in proofs/.
#![tactic(auto)]
