// Tokens laid out in lines: theorems alone (proofs/).
#![tactic(auto)]
