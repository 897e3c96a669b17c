// The rules on names and numbers and the ceilings, said of trees: definitions and theorems alone (specs/ and proofs/).
#![tactic(auto)]
