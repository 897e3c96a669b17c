// That the links of an accepted text lead where its tree does is theorems alone (proofs/).
#![tactic(auto)]
