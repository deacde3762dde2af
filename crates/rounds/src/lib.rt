// One full round of a simulated desk (document 02, F-7), by account and then issue. A delivery is handed over by
// runs, never unit by unit.
#![tactic(auto)]

ghost use Rattle.std.specs.Prelude.{◌≡◌};
ghost use Rattle.rounds.specs.Turns.{amount_in, CanAsk, CanDeliver, Delivered, CanTurn, Turned, CanRound, Rounded};

use desks::SETTLEMENT_COUNT;
use joining::join;
use rules::{ACCOUNT_COUNT, CELL_COUNT, ISSUE_COUNT};
use runs::RANK_COUNT;

// Nets, settlement accounts, delivered lots and inventories stay side by side here and in `sizes`: some are only read and
// some change, others in each function, and a struct of all would ask for more than is needed.

// The smaller of the inventory of an account's settlement account and what it still owes of an issue.
fn amount(
    nets: &[i32],
    settles: &[u32],
    delivered: &[u32],
    inventories: &[u32],
    a: usize,
    i: usize,
) -> u32
    requires { CanAsk nets.now settles.now delivered.now inventories.now a i }
    ensures { result ≡ amount_in nets.now settles.now delivered.now inventories.now a i }
{
    let c = i * ACCOUNT_COUNT + a;
    let k = i * SETTLEMENT_COUNT + settles[a] as usize;
    let net = nets[c];
    let owed = book::owed(net).saturating_sub(delivered[c]);
    inventories[k].min(owed)
}

// An account delivers x lots of an issue, and what is handed over for them joins the inventories.
fn deliver(
    settles: &[u32],
    runs: &[u32],
    size: u32,
    a: usize,
    i: usize,
    x: u32,
    delivered: &mut [u32],
    inventories: &mut [u32],
)
    requires { CanDeliver settles.now runs.now size a i x delivered.old inventories.old }
    ensures { Delivered settles.now runs.now size a i x delivered.old delivered.new inventories.old inventories.new }
{
    let s = i * ACCOUNT_COUNT;
    let e = s + ACCOUNT_COUNT;
    let d = book::total(&delivered[s..e]);
    let c = s + a;
    let k = i * SETTLEMENT_COUNT + settles[a] as usize;
    delivered[c] += x;
    inventories[k] -= x;
    join(runs, size, settles, i, d, x, inventories);
}

// An account's turn in an issue: 1 where it delivers, 0 where it has nothing to deliver.
fn turn(
    nets: &[i32],
    settles: &[u32],
    runs: &[u32],
    size: u32,
    a: usize,
    i: usize,
    delivered: &mut [u32],
    inventories: &mut [u32],
) -> u32
    requires { CanTurn nets.now settles.now runs.now size a i delivered.old inventories.old }
    ensures { Turned nets.now settles.now size a i delivered.old delivered.new inventories.old inventories.new result }
{
    let x = amount(nets, settles, delivered, inventories, a, i);
    if x == 0 {
        return 0;
    }
    deliver(settles, runs, size, a, i, x, delivered, inventories);
    1
}

// A full round, by account and then issue; answers how many deliveries were made.
pub fn round(
    nets: &[i32],
    settles: &[u32],
    runs: &[u32],
    counts: &[u32],
    size: u32,
    delivered: &mut [u32],
    inventories: &mut [u32],
) -> u32
    requires { CanRound nets.now settles.now runs.now counts.now size delivered.old inventories.old }
    ensures { Rounded nets.now settles.now size delivered.old delivered.new inventories.old inventories.new result }
{
    let mut made: u32 = 0;
    for t in 0..CELL_COUNT {
        let a = t / ISSUE_COUNT;
        let i = t % ISSUE_COUNT;
        let s = i * RANK_COUNT;
        let e = s + counts[i] as usize;
        made += turn(
            nets,
            settles,
            &runs[s..e],
            size,
            a,
            i,
            delivered,
            inventories,
        );
    }
    made
}
