// The journal of calls: definitions, worked journals and theorems, no code.
#![tactic(auto)]
