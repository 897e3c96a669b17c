// Numbers as states of the model are definitions and theorems alone (specs/, proofs/).
#![tactic(auto)]
