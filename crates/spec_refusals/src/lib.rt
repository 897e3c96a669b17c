// The rows of the table of refusals are definitions alone (specs/).
#![tactic(auto)]
