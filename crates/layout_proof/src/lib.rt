// The layout of an accepted text: theorems alone (proofs/), and what they speak of (specs/).
#![tactic(auto)]
