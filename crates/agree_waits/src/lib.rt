// That the line on what keeps a `run` from starting, as it is shown from tables and numbers, is that of the tree and the plain state is theorems alone (proofs/).
#![tactic(auto)]
