// Tokens written out, and the one-space rule: definitions in specs/, theorems in proofs/. The writer that follows them is in another crate.
#![tactic(auto)]
