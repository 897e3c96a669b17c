// What the code of a statement begins and ends with, and what holds of all of it, is definitions and theorems alone (specs/, proofs/).
#![tactic(auto)]
