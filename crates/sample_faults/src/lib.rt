// Facts that the checker computes of damaged disks; they stand in specs/.
#![tactic(auto)]
