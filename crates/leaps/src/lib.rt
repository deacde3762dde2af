// Rounds that do the same again are made as one step (document 02, F-7): how many of them there are, and the
// delivered lots after them. So the time of a simulated desk depends neither on the size of units nor on inventories.
#![tactic(auto)]

ghost use Rattle.std.specs.Prelude.{◌≡◌, map, ◌*◌, ◌≤◌, length};
ghost use Rattle.rules.specs.Fails.{undelivered};
ghost use Rattle.runs.specs.Runs.{part_of};
ghost use Rattle.simulation.specs.Repeated.{plus_times, AgainFor, OwedFor};
ghost use Rattle.ranking.specs.Runs.{units_of_runs};
ghost use Rattle.leaps.specs.Rooms.{CanIssue, CanOwe, CanAdvance, CanLeapAll, LeapIs};

use leaping::run_rounds;
use rules::{ACCOUNT_COUNT, CELL_COUNT, ISSUE_COUNT, MOST_LOTS};
use runs::RANK_COUNT;

// At most k rounds more, as the issue's units allow them.
fn issue_rounds(runs: &[u32], size: u32, d: u32, x: u32, k: u32) -> u32
    requires { CanIssue size x }
    ensures { (result ≤ k) × AgainFor (units_of_runs size (map part_of runs.now)) d x result }
{
    if x == 0 {
        return k;
    }
    k.min(run_rounds(runs, size, d, x))
}

// At most k rounds in which x lots go into so many.
fn fewer(k: u32, x: u32, lots: u32) -> u32
    ensures { (result ≤ k) × (result * x ≤ lots) }
{
    if x == 0 {
        return k;
    }
    k.min(lots / x)
}

// For how many rounds more is so much of each still owed?
fn owed_rounds(nets: &[i32], delivered: &[u32], xs: &[u32]) -> u32
    requires { CanOwe nets.now delivered.now xs.now }
    ensures { (result ≤ 20000000) × OwedFor nets.now delivered.now xs.now result }
{
    let mut k: u32 = MOST_LOTS;
    for c in 0..CELL_COUNT {
        let lots = book::owed(nets[c]).saturating_sub(delivered[c]);
        k = fewer(k, xs[c], lots);
    }
    k
}

// How many rounds more deliver what a round delivered.
pub fn leap_rounds(
    nets: &[i32],
    runs: &[u32],
    counts: &[u32],
    size: u32,
    before: &[u32],
    after: &[u32],
    xs: &[u32],
) -> u32
    requires { CanLeapAll nets.now runs.now counts.now size before.now after.now xs.now }
    ensures { LeapIs nets.now size before.now after.now xs.now result }
{
    let mut k = owed_rounds(nets, after, xs);
    for i in 0..ISSUE_COUNT {
        let s = i * ACCOUNT_COUNT;
        let e = s + ACCOUNT_COUNT;
        let d = book::total(&before[s..e]);
        let x = book::total(&xs[s..e]);
        let f = i * RANK_COUNT;
        let g = f + counts[i] as usize;
        k = issue_rounds(&runs[f..g], size, d, x, k);
    }
    k
}

// What the round delivered of each cell.
pub fn changes(before: &[u32], after: &[u32], xs: &mut [u32])
    requires { (length after.now ≡ length before.now) × (length xs.old ≡ length before.now) }
    ensures { xs.new ≡ undelivered after.now before.now }
{
    for (c, had) in before.iter().enumerate() {
        xs[c] = after[c].saturating_sub(*had);
    }
}

// So many rounds more: each cell rises by k times what the round delivered of it.
pub fn advance(xs: &[u32], k: u32, delivered: &mut [u32])
    requires { CanAdvance xs.now k delivered.old }
    ensures { delivered.new ≡ plus_times k xs.now delivered.old }
{
    for (c, x) in xs.iter().enumerate() {
        delivered[c] += k * *x;
    }
}
