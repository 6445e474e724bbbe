// Definitions alone: the differences of two disks, and what the two calls answer that compare them.
#![tactic(auto)]
