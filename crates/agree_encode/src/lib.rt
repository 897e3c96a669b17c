// A plain state as numbers, and what tables must say so that they tell of one, is definitions and theorems alone (specs/, proofs/).
#![tactic(auto)]
