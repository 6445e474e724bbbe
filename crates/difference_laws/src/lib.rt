// Laws alone: what the list of differences says of two trees.
#![tactic(auto)]
