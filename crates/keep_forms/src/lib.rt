// The items of a model stand in one another as the grammar has it: definitions and theorems alone (specs/ and proofs/).
#![tactic(auto)]
