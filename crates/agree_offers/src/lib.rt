// That the steps which a place offers are those of the tree is definitions and theorems alone (specs/, proofs/).
#![tactic(auto)]
