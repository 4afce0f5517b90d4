// Statements and laws alone: the page of the three demands stands in specs/, its proofs in proofs/.
#![tactic(auto)]
