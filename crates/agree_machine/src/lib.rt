// The machine of tables is that of the tree: theorems alone (proofs/).
#![tactic(auto)]
