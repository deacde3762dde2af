// A simulated desk at any size of units: definitions and worked desks. Of code its limits stand here.

// netting accounts share 16 settlement accounts, 0 to 15
#![tactic(auto)]

pub const SETTLEMENT_COUNT: usize = 16;

pub const LAST_SETTLEMENT: u32 = 15;

// each with an inventory for each issue
pub const INVENTORY_COUNT: usize = 256;
