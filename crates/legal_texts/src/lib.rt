// Exactly the texts with a lawful and modest tree are accepted: theorems alone (proofs/).
#![tactic(auto)]
