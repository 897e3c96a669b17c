// That a text is refused for its bytes exactly as the specification says is theorems alone (proofs/).
#![tactic(auto)]
