// What an assessor signs: the normal text of a text and of its tables is definitions and theorems alone (specs/ and proofs/).
#![tactic(auto)]
