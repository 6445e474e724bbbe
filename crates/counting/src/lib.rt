// The laws of the rules' sums and searches; they stand in specs/.
#![tactic(auto)]
