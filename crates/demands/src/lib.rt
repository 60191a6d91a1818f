// No code: the demands as theorems about the calls' definitions, in specs/ and proofs/.
#![tactic(auto)]
