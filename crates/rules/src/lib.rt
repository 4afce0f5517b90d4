// The rules of translation and the bounds before it: definitions and laws only.
#![tactic(auto)]
