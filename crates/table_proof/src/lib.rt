// What the tables of an accepted text hold, and that they fit, is definitions and theorems alone (specs/ and proofs/).
#![tactic(auto)]
