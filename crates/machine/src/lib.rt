// The tick machine of demand 3 over a network, and the proof of the demand (specs/, proofs/). There is no code here.
#![tactic(auto)]
