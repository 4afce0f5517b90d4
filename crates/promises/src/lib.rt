// Laws alone: the public functions and the page of the three demands.
#![tactic(auto)]
