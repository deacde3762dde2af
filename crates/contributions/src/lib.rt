// Obligated funds for a default: definitions and worked defaults, no code.
#![tactic(auto)]
