// What a caller that is not the operator can learn of a book (document 02, F-10): theorems alone, in proofs/. No code stands here.
#![tactic(auto)]
