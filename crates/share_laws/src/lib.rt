// Laws alone: what holds of shared calls.
#![tactic(auto)]
