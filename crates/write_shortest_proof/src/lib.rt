// What the normal text of an accepted text is, is definitions and theorems alone (specs/ and proofs/).
#![tactic(auto)]
