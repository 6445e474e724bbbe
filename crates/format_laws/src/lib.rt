// Theorems about a formatted image; they stand in specs/.
#![tactic(auto)]
