// Definitions alone: shares, the tests 30 and 29, and what the six shared calls answer.
#![tactic(auto)]
