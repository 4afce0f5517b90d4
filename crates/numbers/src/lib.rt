// Whole numbers: definitions and laws only.
#![tactic(auto)]
