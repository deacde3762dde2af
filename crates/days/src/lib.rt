// The worked days on whole books. No code stands here; the books and the days are in specs/.
#![tactic(auto)]
