// What is shown of texts, states, steps and trails: definitions over trees and plain states, and no function.
#![tactic(auto)]
