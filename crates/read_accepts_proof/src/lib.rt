// What it means that a text is accepted is definitions and theorems alone (specs/ and proofs/).
#![tactic(auto)]
