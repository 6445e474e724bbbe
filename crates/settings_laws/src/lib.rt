// Theorems about settings files and their conversions; specs/ has them all.
#![tactic(auto)]
