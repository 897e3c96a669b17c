// Worked examples on both sides of the boundaries of document 01, computed: they are definitions and theorems alone (specs/).
#![tactic(auto)]
