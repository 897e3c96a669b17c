// Which row of the table an answer of the reader stands for is definitions and theorems alone (specs/ and proofs/).
#![tactic(auto)]
