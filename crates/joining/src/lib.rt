// What a delivery of a simulated desk hands over joins the inventories, run by run.
#![tactic(auto)]

ghost use Rattle.std.specs.Prelude.{◌≡◌, map, ◌+◌, ◌<◌};
ghost use Rattle.runs.specs.Runs.{part_of};
ghost use Rattle.joining.specs.Runs.{handed_of, joined_runs, CanJoin};

use desks::SETTLEMENT_COUNT;
use rules::ACCOUNTS;

// The lots of a run that a total hands over: all of them, or the units that go whole into it.
#[tactic(auto, unfolding(crate::specs::Runs::handed_of))]
fn handed_lots(lots: u32, d: u32, size: u32) -> u32
    requires { 0 < size }
    ensures { result ≡ handed_of size lots d }
{
    if lots <= d { lots } else { d / size * size }
}

// What x more lots hand over joins the inventories of the issue, run by run.
pub fn join(
    runs: &[u32],
    size: u32,
    settles: &[u32],
    i: usize,
    d: u32,
    x: u32,
    inventories: &mut [u32],
)
    requires { CanJoin size settles.now i d x inventories.old }
    ensures { inventories.new ≡ joined_runs settles.now size i (map part_of runs.now) d (d + x) inventories.old }
{
    let mut b = d;
    let mut e = d + x;
    for key in runs {
        let lots = *key / ACCOUNTS;
        let a = (*key % ACCOUNTS) as usize;
        let c = i * SETTLEMENT_COUNT + settles[a] as usize;
        let g = handed_lots(lots, e, size) - handed_lots(lots, b, size);
        inventories[c] += g;
        b = b.saturating_sub(lots);
        e = e.saturating_sub(lots);
    }
}
