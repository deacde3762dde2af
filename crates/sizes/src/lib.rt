// Unit sizes on a simulated desk (document 02, F-7): netting accounts that share settlement accounts deliver in
// turn, round after round, until one makes no delivery. Rounds that do the same again are made as one step.
#![tactic(auto)]

ghost use Rattle.std.specs.Prelude.{◌≡◌, map};
ghost use Rattle.rules.specs.Measures.{sum, owed_of};
ghost use Rattle.rules.specs.Fails.{undelivered};
ghost use Rattle.desks.specs.Desk.{plan, simulated, owed_of_each};
ghost use Rattle.rounds.specs.Turns.{CanRound};
ghost use Rattle.sizes.specs.Steps.{Stepped, CanEnd, EndIs, CanSum, CanSumEach, CanSimulate, SimulatedIs};

use desks::INVENTORY_COUNT;
use leaps::{advance, changes, leap_rounds};
use ranking::rank_all;
use rounds::round;
use rules::{ACCOUNT_COUNT, CELL_COUNT, ISSUE_COUNT};

// the runs of all issues
const RANKS_OF_ALL: usize = 2048;

pub mod asks;

// What a round did: the deliveries made, and how many more rounds that deliver the same were made with it.
#[derive(Clone, Copy, Drop)]
pub struct Step {
    pub made: u32,
    pub leapt: u32,
}

// A round, and as many more as deliver the same.
// What it takes stands one by one, as in `rounds::round`, which says why.
fn round_and_leap(
    nets: &[i32],
    settles: &[u32],
    runs: &[u32],
    counts: &[u32],
    size: u32,
    delivered: &mut [u32],
    inventories: &mut [u32],
) -> Step
    requires { CanRound nets.now settles.now runs.now counts.now size delivered.old inventories.old }
    ensures { Stepped nets.now settles.now runs.now counts.now size delivered.old delivered.new inventories.old inventories.new result.made result.leapt }
{
    let mut before = [0u32; CELL_COUNT];
    let mut held = [0u32; INVENTORY_COUNT];
    before.copy_from_slice(delivered);
    held.copy_from_slice(inventories);
    let made = round(nets, settles, runs, counts, size, delivered, inventories);
    if made == 0 {
        return Step { made, leapt: 0 };
    }
    if &held[..] != &inventories[..] {
        return Step { made, leapt: 0 };
    }
    let mut xs = [0u32; CELL_COUNT];
    changes(&before, delivered, &mut xs);
    let leapt = leap_rounds(nets, runs, counts, size, &before, delivered, &xs);
    advance(&xs, leapt, delivered);
    Step { made, leapt }
}

// Deliveries and rounds made.
#[derive(Clone, Copy, Drop)]
pub struct Totals {
    pub deliveries: u64,
    pub rounds: u64,
}

// Round after round, until one makes no delivery: the loop counts no index, and no range says how many rounds there are.
fn to_the_end(
    nets: &[i32],
    settles: &[u32],
    runs: &[u32],
    counts: &[u32],
    size: u32,
    delivered: &mut [u32],
    inventories: &mut [u32],
) -> Totals
    requires { CanEnd nets.now settles.now runs.now counts.now size delivered.old inventories.old }
    ensures { EndIs nets.now settles.now size delivered.old delivered.new inventories.old inventories.new result.deliveries result.rounds }
{
    let mut deliveries: u64 = 0;
    let mut rounds: u64 = 0;
    loop {
        let s = round_and_leap(nets, settles, runs, counts, size, delivered, inventories);
        let made = s.made as u64;
        let leapt = s.leapt as u64;
        if made == 0 {
            rounds += 1;
            return Totals { deliveries, rounds };
        }
        deliveries += made + leapt * made;
        rounds += leapt + 1;
    }
}

// The lots of an issue that are owed and not delivered.
fn missing(net: &[i32], delivered: &[u32]) -> u32
    requires { CanSum net.now delivered.now }
    ensures { result ≡ sum (undelivered (map owed_of net.now) delivered.now) }
{
    let mut short = [0u32; ACCOUNT_COUNT];
    book::missing_of(net, delivered, &mut short);
    book::total(&short)
}

// The lots still owed of each issue.
fn still_owed(nets: &[i32], delivered: &[u32], owed: &mut [u32])
    requires { CanSumEach nets.now delivered.now owed.old }
    ensures { owed.new ≡ owed_of_each nets.now delivered.now }
{
    for i in 0..ISSUE_COUNT {
        let s = i * ACCOUNT_COUNT;
        let e = s + ACCOUNT_COUNT;
        owed[i] = missing(&nets[s..e], &delivered[s..e]);
    }
}

// The whole simulation, from nothing delivered; the lots still owed of each issue go to the lent array.
pub fn simulate(
    nets: &[i32],
    settles: &[u32],
    inventories: &[u32],
    size: u32,
    owed: &mut [u32],
) -> Totals
    requires { CanSimulate nets.now settles.now inventories.now size owed.old }
    ensures { SimulatedIs nets.now (simulated (plan nets.now settles.now size) inventories.now) result.deliveries result.rounds owed.new }
{
    let mut runs = [0u32; RANKS_OF_ALL];
    let mut counts = [0u32; ISSUE_COUNT];
    rank_all(nets, &mut runs, &mut counts, size);
    let mut delivered = [0u32; CELL_COUNT];
    let mut held = [0u32; INVENTORY_COUNT];
    held.copy_from_slice(inventories);
    let t = to_the_end(
        nets,
        settles,
        &runs,
        &counts,
        size,
        &mut delivered,
        &mut held,
    );
    still_owed(nets, &delivered, owed);
    t
}
