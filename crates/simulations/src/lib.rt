// What a call of the simulator needs and keeps, its writes, and the outcome of each way through it (specs/ and proofs/).
#![tactic(auto)]
