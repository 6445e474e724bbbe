// Theorems about what a store changes and what it leaves; they stand in specs/.
#![tactic(auto)]
