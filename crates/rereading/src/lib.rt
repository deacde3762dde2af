// Tapes written and read again: theorems, no code.
#![tactic(auto)]
