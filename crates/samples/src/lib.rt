// Small disks, and facts that the checker computes of a formatted one; they stand in specs/.
#![tactic(auto)]
