// No code: what the library promises stands in specs/ and is proved in proofs/.
#![tactic(auto)]
