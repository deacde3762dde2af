// Runs, words that stand for units in unit order, and the rows of a sound book: definitions and theorems. Of code the
// measures of runs stand here: a run's word is its lots times the number of accounts, plus the account.

// the most runs of an issue with its lifts, and without them
#![tactic(auto)]

pub const RUN_COUNT: usize = 144;

pub const RANK_COUNT: usize = 128;

// the least word of a run with a full unit
pub const UNIT_WORD: u32 = 6_400_000;

// the most lots of a small unit
pub const MOST_SMALL: u32 = 99_999;
