// Refusals of small texts, computed from their bytes: they are theorems alone (specs/).
#![tactic(auto)]
