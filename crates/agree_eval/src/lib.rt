// That the tables of accepted texts say what the expressions of their trees mean is theorems alone (proofs/).
#![tactic(auto)]
