// What is shown of a state's numbers is what the specification shows of the plain state: theorems alone (proofs/).
#![tactic(auto)]
