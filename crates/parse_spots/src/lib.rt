// The tokens of the items of a derivation are definitions and theorems alone (specs/, proofs/).
#![tactic(auto)]
