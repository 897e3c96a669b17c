// The sample sheet of document 01 as one list: theorems alone (proofs/).
#![tactic(auto)]
