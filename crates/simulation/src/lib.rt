// Definitions and theorems of a simulated desk (document 02, F-7). No code stands here.
#![tactic(auto)]
