// Trials of the definitions on bytes, in proofs/: every kind of node, and number 8 at each place where a walk goes. There is no code.
#![tactic(auto)]
