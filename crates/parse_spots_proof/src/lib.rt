// That the parser gives each item the token of the derivation is theorems alone (proofs/).
#![tactic(auto)]
