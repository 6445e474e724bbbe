// Theorems about the changes on an accepted image; they stand in specs/.
#![tactic(auto)]
