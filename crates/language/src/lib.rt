// The language of constraints: definitions and laws only.
#![tactic(auto)]
