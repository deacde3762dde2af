// An issue's units where full ones are dealt in turn and then lifted.
// Nets and lifts come one by one, of the nine columns those that an order is made of.
#![tactic(auto)]

ghost use Rattle.std.specs.Prelude.{◌≡◌, map, length, take, drop, true};
ghost use Rattle.rules.specs.Book.{order_in};
ghost use Rattle.runs.specs.Runs.{part_of, found_of, CanRankNets, CanOrder};
ghost use Rattle.dealing.specs.Dealing.{CanWindow, lifted_runs, full_number, IsRanked, CanReady, IsReady, CanDealOut, DealtOut};

use handover::number;
use inturn::deal_out;
use lifted::lift_all;
use ordering::ranked;
use rules::{ACCOUNTS, LIFT_WORDS, Unit};
use runs::{RANK_COUNT, UNIT_WORD};
use unlifting::before_lifts;

// The units from unit k on of the order as lifted, as many as there are places lent for, a word each. A turn puts out
// as many as stand side by side before all lifts too, so no iterator counts them.
fn window(runs: &[u32], m: usize, words: &[u32], k: u32, out: &mut [u32])
    requires { CanWindow runs.now (length runs.now) m words.now k out.old }
    ensures { map part_of out.new ≡ take (length out.old) (drop k (lifted_runs runs.now (length runs.now) m words.now)) }
{
    let mut done = 0;
    while done < out.len() {
        let s = before_lifts(words, k + done as u32);
        let x = s.len.min((out.len() - done) as u32);
        let e = done + x as usize;
        deal_out(runs, m, s.base, &mut out[done..e]);
        done = e;
    }
}

// How many of the runs are of full units: those in front.
fn full_runs(runs: &[u32]) -> usize
    ensures { result ≡ full_number (map part_of runs.now) }
{
    for (m, run) in runs.iter().enumerate() {
        if *run < UNIT_WORD {
            return m;
        }
    }
    runs.len()
}

// An issue's runs in the order without lifts: n words, the first `full` of them of full units.
#[derive(Clone, Copy, Drop)]
pub struct Ranks {
    pub n: usize,
    pub full: usize,
}

// The runs of an issue in the order without lifts, into a lent array of at least 128 words.
pub fn rank(nets: &[i32], i: usize, keys: &mut [u32]) -> Ranks
    requires { CanRankNets nets.now i keys.old }
    ensures { IsRanked nets.now i keys.new result }
{
    let n = ranked(nets, i, keys);
    let full = full_runs(&keys[..n]);
    Ranks { n, full }
}

// An issue ranked, and so many words of the same runs as lifted in the order of old: place by place the
// units dealt in turn have the same lots.
#[derive(Clone, Copy, Drop)]
pub struct Ready {
    pub ranks: Ranks,
    pub lifted: usize,
}

// The runs of an issue into two lent arrays, of at least 128 and 144 words: without lifts, and as lifted.
pub fn prepare(nets: &[i32], lifts: &[u32], i: usize, keys: &mut [u32], runs: &mut [u32]) -> Ready
    requires { CanReady nets.now lifts.now i keys.old runs.old }
    ensures { IsReady nets.now lifts.now i keys.new runs.new result }
{
    let ranks = rank(nets, i, keys);
    let n = ranks.n;
    runs[..n].copy_from_slice(&keys[..n]);
    let s = i * LIFT_WORDS;
    let e = s + LIFT_WORDS;
    let lifted = lift_all(&lifts[s..e], runs, n);
    Ready { ranks, lifted }
}

// The units of a ranked issue from unit k on, full units dealt in turn and then lifted: as many as there are
// places lent for, a word each.
pub fn units_from(keys: &[u32], p: Ranks, lifts: &[u32], i: usize, k: u32, out: &mut [u32])
    requires { CanDealOut keys.now p lifts.now i k out.old }
    ensures { DealtOut keys.now p lifts.now i k (length out.old) out.new }
{
    let s = i * LIFT_WORDS;
    let e = s + LIFT_WORDS;
    window(&keys[..p.n], p.full, &lifts[s..e], k, out);
}

// The k-th unit of an issue, full units dealt in turn and then lifted.
pub fn unit(nets: &[i32], lifts: &[u32], i: usize, k: u32) -> Option<Unit>
    requires { CanOrder nets.now lifts.now i }
    ensures { result ≡ found_of (drop k (order_in true nets.now lifts.now i)) }
{
    let mut keys = [0u32; RANK_COUNT];
    let p = rank(nets, i, &mut keys);
    let n = p.n;
    if number(&keys[..n]) <= k {
        return None;
    }
    let mut out = [0u32; 1];
    units_from(&keys, p, lifts, i, k, &mut out);
    let word = out[0];
    Some(Unit {
        account: word % ACCOUNTS,
        lots: word / ACCOUNTS,
    })
}
