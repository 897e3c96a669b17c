// What begins in a model is definitions and theorems alone (specs/, proofs/).
#![tactic(auto)]
