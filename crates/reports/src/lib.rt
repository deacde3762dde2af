// The shares of a fail inside a trust account: definitions, worked days, theorems, and the columns of the reports.
#![tactic(auto)]

// An issue's trade reports of the day as a host lends them, each with a place in every column: sub-account, counterparty,
// signed lots (above 0 a receipt, below 0 a delivery), earlier fail (0: none) or not.
#[derive(Clone, Copy, Drop)]
pub struct Columns<'a> {
    pub subs: &'a [u32],
    pub parties: &'a [u32],
    pub lots: &'a [i32],
    pub earlier: &'a [u8],
}
