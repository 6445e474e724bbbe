// Facts that the checker computes of calls on a file; they stand in specs/.
#![tactic(auto)]
