// Whether a normal text is too long: a theorem alone (proofs/).
#![tactic(auto)]
