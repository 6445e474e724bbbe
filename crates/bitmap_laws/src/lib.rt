// Theorems about the bitmap, and the laws that its code is proved with; specs/ has them all.
#![tactic(auto)]
