// That selections and options of an accepted text are nested in its tables is theorems alone (proofs/).
#![tactic(auto)]
