// That the normal text of an accepted text's tables is that of its tree is definitions and theorems alone (specs/ and proofs/).
#![tactic(auto)]
