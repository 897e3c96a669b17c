// That the rules on the items of a body's statements are those of the tree is definitions and theorems alone (specs/, proofs/).
#![tactic(auto)]
