// What the faults of a text are, with their numbers and tokens, is definitions alone (specs/).
#![tactic(auto)]
