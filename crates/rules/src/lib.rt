// The rules are definitions alone; they stand in specs/.
#![tactic(auto)]
