// The same deliveries in another order: the theorem and its proof are in proofs/, days on whole books in specs/Days. No code stands here.
#![tactic(auto)]
