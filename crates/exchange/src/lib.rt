// The plan on paper: definitions and promises in specs/, theorems in proofs/, no function.
#![tactic(auto)]
