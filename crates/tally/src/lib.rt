// Demand 3, over every list of calls: the theorem and its proof are in proofs/. No code stands here yet.
#![tactic(auto)]
