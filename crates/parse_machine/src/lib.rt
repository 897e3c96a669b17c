// The parsing machine as definitions, and its theorems: specs/ and proofs/. There is no code.
#![tactic(auto)]
