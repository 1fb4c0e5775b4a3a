// Definitions and laws on lists, counting and numbers that two or more crates need. No code.
#![tactic(auto)]
