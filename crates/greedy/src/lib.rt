// Rounds over any family of subsets, and the bound on what they choose: definitions in specs/, theorems in proofs/, no function.
#![tactic(auto)]
