// Laws alone: the differences worked out directory by directory are those of the paths.
#![tactic(auto)]
