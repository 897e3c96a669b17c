// What was demanded, stated over the public entries and the specification, and proved: definitions and theorems alone.
#![tactic(auto)]
