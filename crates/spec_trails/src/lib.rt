// Runs and trails of the specification are definitions alone (specs/).
#![tactic(auto)]
