// Laws alone: what holds of a safe update that is cut off.
#![tactic(auto)]
