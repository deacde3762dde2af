// Theorems about the definitions of `rules`. No code stands here; the laws are in proofs/.
#![tactic(auto)]
