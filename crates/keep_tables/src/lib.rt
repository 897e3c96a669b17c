// The tables of an accepted text are such that its states are kept: definitions and theorems alone (specs/ and proofs/).
#![tactic(auto)]
