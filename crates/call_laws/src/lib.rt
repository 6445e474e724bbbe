// Laws of the calls' outcomes; they stand in specs/.
#![tactic(auto)]
