// What the items of a model say, in terms of its tree, is definitions alone (specs/).
#![tactic(auto)]
