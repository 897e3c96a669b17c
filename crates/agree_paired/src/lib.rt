// That what is shown of a statement determines it is theorems alone (proofs/).
#![tactic(auto)]
