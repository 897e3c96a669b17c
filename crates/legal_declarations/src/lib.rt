// That the faults of the items of a model are those of its derivation is theorems alone (proofs/).
#![tactic(auto)]
