// That a trail is refused for its form exactly as the specification says is theorems alone (proofs/).
#![tactic(auto)]
