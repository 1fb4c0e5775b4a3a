// Laws of lending, in the logic that the checker's own part of a proof is made of. No function, and nothing rests on them.
#![tactic(auto)]
