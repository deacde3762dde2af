// Full units dealt in turn, out of the runs of the order without lifts: m runs of full units, which never
// rise, and small units behind them. Round by round the units are never listed: a place in them is a
// round, how many runs take part in it, and how many units of it are passed.
#![tactic(auto)]

ghost use Rattle.std.specs.Prelude.{◌≡◌, map, ◌+◌, ◌≤◌, length, take, drop};
ghost use Rattle.runs.specs.Runs.{part_of};
ghost use Rattle.inturn.specs.InTurn.{Falling, Narrowed, CanDeal, dealt_runs, dealt_from, Seated, SeatAt, CanStep, Stepped};

use rules::ACCOUNTS;
use runs::UNIT_WORD;

// A place in front of a unit: in a round in which so many runs take part, behind so many of its units;
// where none takes part, behind so many small units.
#[derive(Clone, Copy, Drop)]
pub struct Deal {
    pub round: u32,
    pub wide: usize,
    pub at: usize,
}

// A unit as a word, and the place behind it.
#[derive(Clone, Copy, Drop)]
pub struct Dealt {
    pub word: u32,
    pub next: Deal,
}

// How many of the runs, those in front, have more than r full units.
fn narrow(runs: &[u32], r: u32) -> usize
    requires { Falling runs.now (length runs.now) }
    ensures { Narrowed runs.now (length runs.now) r result }
{
    for last in (0..runs.len()).rev() {
        if r < runs[last] / UNIT_WORD {
            return last + 1;
        }
    }
    0
}

// The place in front of unit k, k from 0. The same runs take part in round after round until the least of
// them has no unit left: so many rounds are passed at once, so no range counts the turns of the loop.
pub fn seat(runs: &[u32], m: usize, k: u32) -> Deal
    requires { CanDeal runs.now (length runs.now) m }
    ensures { (drop k (dealt_runs runs.now (length runs.now) m) ≡ dealt_from runs.now (length runs.now) m result) × Seated runs.now m result × SeatAt runs.now m k result }
{
    let mut left = k;
    let mut r: u32 = 0;
    let mut w = narrow(&runs[..m], 0);
    while 0 < w {
        let v = w as u32;
        let c = runs[w - 1] / UNIT_WORD - r;
        let b = v * c;
        if left < b {
            return Deal {
                round: r + left / v,
                wide: w,
                at: (left % v) as usize,
            };
        }
        left -= b;
        r += c;
        w = narrow(&runs[..w], r);
    }
    Deal {
        round: r,
        wide: w,
        at: left as usize,
    }
}

// The unit behind a place, and the place behind it.
fn step(runs: &[u32], m: usize, d: Deal) -> Dealt
    requires { CanStep runs.now (length runs.now) m d }
    ensures { Stepped runs.now (length runs.now) m d result }
{
    let at = d.at;
    let w = d.wide;
    let r = d.round;
    if w == 0 {
        let next = Deal {
            round: r,
            wide: 0,
            at: at + 1,
        };
        return Dealt {
            word: runs[m + at],
            next,
        };
    }
    let word = UNIT_WORD + runs[at] % ACCOUNTS;
    if at + 1 < w {
        let next = Deal {
            round: r,
            wide: w,
            at: at + 1,
        };
        return Dealt { word, next };
    }
    let v = narrow(&runs[..w], r + 1);
    let next = Deal {
        round: r + 1,
        wide: v,
        at: 0,
    };
    Dealt { word, next }
}

// The units from unit k on, as many as there are places lent for, a word each.
pub fn deal_out(runs: &[u32], m: usize, k: u32, out: &mut [u32])
    requires { CanDeal runs.now (length runs.now) m × (k + length out.old ≤ length (dealt_runs runs.now (length runs.now) m)) }
    ensures { map part_of out.new ≡ take (length out.old) (drop k (dealt_runs runs.now (length runs.now) m)) }
{
    let mut d = seat(runs, m, k);
    for word in out {
        let s = step(runs, m, d);
        *word = s.word;
        d = s.next;
    }
}
