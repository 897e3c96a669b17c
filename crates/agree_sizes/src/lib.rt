// That a tree's code has an item for each number of its places, and the bodies that those numbers are of: definitions and theorems alone (specs/ and proofs/).
#![tactic(auto)]
