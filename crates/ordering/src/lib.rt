// The units of an issue in the order without lifts: the full ones are ranked by due, the small ones behind them.
#![tactic(auto)]

ghost use Rattle.std.specs.Prelude.{◌≡◌, ◌≤◌};
ghost use Rattle.rules.specs.Measures.{unit_lots};
ghost use Rattle.rules.specs.Ranking.{OnlyOrder};
ghost use Rattle.runs.specs.Runs.{runs_in, units_in, runs_of, CanRank, CanRankNets, RankedNets};

use rules::{ACCOUNT_COUNT, UNIT_LOTS};
use sorting::{fulls, rank, rests};

// The runs of accounts with these dues, in unit order; answers their number. The full units are ranked, and
// behind them the small ones: so all stand as the four cases rank them, full and small among them. `ranking::order` takes
// the same steps at any size: one function of both would ask for a second one here, which turns its answer into these
// clauses at document 01's size, and is no plainer.
fn order(dues: &[u32], runs: &mut [u32]) -> usize
    requires { CanRank 128 dues.now runs.old }
    ensures { (result ≤ 128) × (runs_in runs.new result ≡ runs_of dues.now) × OnlyOrder unit_lots dues.now (units_in runs.new result) }
{
    let n = rank(dues, runs, UNIT_LOTS);
    fulls(&mut runs[..n], UNIT_LOTS);
    let mut small = [0u32; ACCOUNT_COUNT];
    rests(dues, &mut small, UNIT_LOTS);
    let m = rank(&small, &mut runs[n..], 1);
    n + m
}

// The units of an issue in the order without lifts, into a lent array; answers how many words they take. The same lines
// stand in `ranking` for any size of units; each calls its own `order`.
pub fn ranked(nets: &[i32], i: usize, runs: &mut [u32]) -> usize
    requires { CanRankNets nets.now i runs.old }
    ensures { RankedNets nets.now i runs.new result }
{
    let s = i * ACCOUNT_COUNT;
    let e = s + ACCOUNT_COUNT;
    let mut dues = [0u32; ACCOUNT_COUNT];
    book::dues_of(&nets[s..e], &mut dues);
    order(&dues, runs)
}
