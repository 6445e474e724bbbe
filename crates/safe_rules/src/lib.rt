// Definitions alone: safe updates, their plans, their lists of block writes, and what the four safe calls answer.
#![tactic(auto)]
