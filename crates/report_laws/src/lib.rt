// Theorems about the shift report, and the laws that its call is proved with; specs/ has them all.
#![tactic(auto)]
