// The statements of tables, as they are shown, are those of the tree, and stand where the tree's stand: theorems alone (proofs/).
#![tactic(auto)]
