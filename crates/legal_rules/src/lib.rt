// Which trees have no fault of names and rules: definitions and theorems alone (specs/ and proofs/).
#![tactic(auto)]
