// That the tables of accepted texts say what the statements of their trees do is theorems alone (proofs/).
#![tactic(auto)]
