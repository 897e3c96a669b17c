// Trees and the grammar are definitions and theorems alone (specs/ and proofs/).
#![tactic(auto)]
