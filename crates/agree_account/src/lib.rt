// That the lines of steps and of processes, as they are shown from tables and numbers, are those of the tree and the plain state is theorems alone (proofs/).
#![tactic(auto)]
