// Definitions alone: specs/.
#![tactic(auto)]
