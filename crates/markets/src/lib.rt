// Definitions and theorems of small markets (document 02, F-12). No code stands here.
#![tactic(auto)]
