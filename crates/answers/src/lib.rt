// What each public call answers: definitions and laws only.
#![tactic(auto)]
