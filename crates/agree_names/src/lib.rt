// What tables say of names is definitions and theorems alone (specs/, proofs/).
#![tactic(auto)]
