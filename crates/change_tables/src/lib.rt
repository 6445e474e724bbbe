// What a change leaves of an image and of its two tables; it stands in specs/.
#![tactic(auto)]
