// The machine of the specification is definitions alone (specs/), and the laws of messages (proofs/).
#![tactic(auto)]
