// The layout of tokens is that of their tree: definitions and theorems alone (specs/ and proofs/).
#![tactic(auto)]
