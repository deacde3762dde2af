// What is told of a unit, over lists of calls: the theorems and their proofs are in proofs/, days on whole books in specs/Days. No code stands here.
#![tactic(auto)]
