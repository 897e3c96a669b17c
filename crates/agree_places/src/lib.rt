// Each place of a model is the place of one of its tree's statements, and a goto leads to its label: theorems alone (proofs/).
#![tactic(auto)]
