// That the items of a text say what its tree says is definitions and theorems alone (specs/, proofs/).
#![tactic(auto)]
