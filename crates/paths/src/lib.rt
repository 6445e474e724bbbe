// Definitions and laws alone: the tree of an image, by paths.
#![tactic(auto)]
