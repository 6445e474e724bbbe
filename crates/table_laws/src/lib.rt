// What the block table of an accepted image shows of its chains; specs/ has it all.
#![tactic(auto)]
