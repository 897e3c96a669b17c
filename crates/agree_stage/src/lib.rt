// The stage of tables and numbers is definitions and theorems alone (specs/, proofs/).
#![tactic(auto)]
