// Facts that the checker computes of calls on directories; they stand in specs/.
#![tactic(auto)]
