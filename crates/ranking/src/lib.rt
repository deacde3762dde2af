// The units of every issue in the order of document 001, at any size of units, as runs: a receiver's full units are
// one word, lots * 64 + account, and its small unit another.
#![tactic(auto)]

ghost use Rattle.std.specs.Prelude.{◌≡◌, ◌≤◌};
ghost use Rattle.runs.specs.Runs.{runs_in};
ghost use Rattle.ranking.specs.Orders.{runs_at, CanOrder, CanRankAt, RankedAt, CanRankAll, Table};

use rules::{ACCOUNT_COUNT, ISSUE_COUNT};
use runs::RANK_COUNT;
use sorting::{fulls, rank, rests};

// The runs of accounts with these dues, in unit order; answers their number. The steps are those of `ordering::order`, whose
// contract says more at document 01's size.
fn order(dues: &[u32], runs: &mut [u32], size: u32) -> usize
    requires { CanOrder size dues.now runs.old }
    ensures { (result ≤ 128) × (runs_in runs.new result ≡ runs_at size dues.now) }
{
    let n = rank(dues, runs, size);
    fulls(&mut runs[..n], size);
    let mut small = [0u32; ACCOUNT_COUNT];
    rests(dues, &mut small, size);
    let m = rank(&small, &mut runs[n..], 1);
    n + m
}

// The units of an issue in the order of document 001, into a lent array; answers how many words they take.
fn rank_issue(nets: &[i32], i: usize, runs: &mut [u32], size: u32) -> usize
    requires { CanRankAt size nets.now i runs.old }
    ensures { RankedAt size nets.now i runs.new result }
{
    let s = i * ACCOUNT_COUNT;
    let e = s + ACCOUNT_COUNT;
    let mut dues = [0u32; ACCOUNT_COUNT];
    book::dues_of(&nets[s..e], &mut dues);
    order(&dues, runs, size)
}

// The runs of every issue: those of issue i from word i * 128 on, and their number.
pub fn rank_all(nets: &[i32], runs: &mut [u32], counts: &mut [u32], size: u32)
    requires { CanRankAll size nets.now runs.old counts.old }
    ensures { Table size nets.now runs.new counts.new }
{
    for i in 0..ISSUE_COUNT {
        let s = i * RANK_COUNT;
        let e = s + RANK_COUNT;
        let n = rank_issue(nets, i, &mut runs[s..e], size);
        counts[i] = n as u32;
    }
}
