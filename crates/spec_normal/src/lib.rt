// The normal text of a tree is a definition alone (specs/).
#![tactic(auto)]
