// The machine of tables and numbers, and that it agrees with the plain one, is definitions and theorems alone (specs/, proofs/).
#![tactic(auto)]
