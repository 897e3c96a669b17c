// Where expressions start in the items of a model and how high they are is definitions and theorems alone (specs/ and proofs/).
#![tactic(auto)]
