// The code of a tree is definitions and theorems alone (specs/ and proofs/).
#![tactic(auto)]
