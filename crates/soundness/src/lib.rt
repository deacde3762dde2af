// Soundness of a book, scanned in its columns.
#![tactic(auto)]

pub mod scan;
