// That stages and machines which agree move alike is definitions and theorems alone (specs/, proofs/).
#![tactic(auto)]
