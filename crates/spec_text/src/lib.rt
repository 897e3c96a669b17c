// What the specification says of texts is definitions alone (specs/).
#![tactic(auto)]
