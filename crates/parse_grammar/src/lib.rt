// The machine that reads token lists is definitions and theorems alone (specs/ and proofs/).
#![tactic(auto)]
