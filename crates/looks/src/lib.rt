// Definitions alone: what the calls answer that find an entry by name and read the disk's label.
#![tactic(auto)]
