// That what is shown of a step are its deeds is theorems alone (proofs/).
#![tactic(auto)]
