// The cutoff where full units are dealt in turn: the stretches of what waits, made from the front, one run
// after the other. Units are never listed: of whole rounds each account's are taken together.
#![tactic(auto)]

ghost use Rattle.std.specs.Prelude.{◌≡◌, length};
ghost use Rattle.runs.specs.Runs.{part_of};
ghost use Rattle.stretching.specs.Adding.{CanAdd, Added, share_of, CanFeed, Fed};
ghost use Rattle.stretching.specs.Gaps.{CanTake, Taken, CanTakeAll, TakenAll, CanFeedPending, FedPending, CanGap, GapIs, CanPass, HasPassed};
ghost use Rattle.stretching.specs.Spans.{CanFeedSpan, FedSpan, CanFeedWaiting, FedWaiting, CanStart, HasStarted};

use inturn::seat;
use rules::{ACCOUNT_COUNT, ACCOUNTS, LIFT_WORDS};
use runs::{RANK_COUNT, UNIT_WORD};
use units::{Position, stand};
use unlifting::before_lifts;

// at most so many lifted units part the spans that are fed as one
const MOST_GAPS: usize = 8;

// The units of one run more behind c stretches; answers how many there are then. `at` says of each account
// where its stretch of full units stands: 0, or one more than its place (an `Option` would double the table that each
// cutoff of an issue clears). The array of the stretches is lent whole, with their number, and is filled in place, here and
// below: there is no heap.
fn add(out: &mut [u32], c: usize, at: &mut [usize], word: u32) -> usize
    requires { CanAdd out.old c at.old word }
    ensures { Added out.old out.new c at.new word result }
{
    if word < ACCOUNTS {
        return c;
    }
    if word < UNIT_WORD {
        out[c] = word;
        return c + 1;
    }
    let a = (word % ACCOUNTS) as usize;
    let p = at[a];
    if p == 0 {
        at[a] = c + 1;
        out[c] = word;
        return c + 1;
    }
    out[p - 1] += word / ACCOUNTS * ACCOUNTS;
    c
}

// What a run has of so many rounds from a round on; a small unit is left as it is.
fn share(word: u32, round: u32, rounds: u32) -> u32
    ensures { part_of result ≡ share_of round rounds (part_of word) }
{
    if word < UNIT_WORD {
        return word;
    }
    let q = word / UNIT_WORD;
    if q <= round {
        return word % ACCOUNTS;
    }
    rounds.min(q - round) * UNIT_WORD + word % ACCOUNTS
}

// What the runs from x to y have of so many rounds, behind c stretches; answers how many there are then. The runs come
// whole with two places of them, since a seat is such a place and the facts of a seat are about all the runs.
fn feed(
    runs: &[u32],
    x: usize,
    y: usize,
    round: u32,
    rounds: u32,
    out: &mut [u32],
    c: usize,
    at: &mut [usize],
) -> usize
    requires { CanFeed runs.now x y round rounds out.old c at.old }
    ensures { Fed runs.now x y round rounds out.old out.new c at.new result }
{
    let mut k = c;
    for j in x..y {
        k = add(out, k, at, share(runs[j], round, rounds));
    }
    k
}

// The units of so many places from `base` on, dealt in turn and before lifts, behind c stretches; answers how
// many there are then. They are small units, or a part of a round, or the rest of a round, whole rounds, and
// small units or the front of a round.
fn feed_span(
    runs: &[u32],
    m: usize,
    base: u32,
    len: u32,
    out: &mut [u32],
    c: usize,
    at: &mut [usize],
) -> usize
    requires { CanFeedSpan runs.now (length runs.now) m base len out.old c at.old }
    ensures { FedSpan runs.now (length runs.now) m base len out.old out.new c at.new result }
{
    let d = seat(runs, m, base);
    let r = d.round;
    let w = d.wide;
    let j = d.at;
    let x = len as usize;
    if w == 0 {
        return feed(runs, m + j, m + j + x, 0, 0, out, c, at);
    }
    if x <= w - j {
        return feed(runs, j, j + x, r, 1, out, c, at);
    }
    let g = seat(runs, m, base + len);
    let q = g.round;
    let v = g.at;
    let a = feed(runs, j, w, r, 1, out, c, at);
    let b = feed(runs, 0, w, r + 1, q - r - 1, out, a, at);
    if g.wide == 0 {
        return feed(runs, m, m + v, 0, 0, out, b, at);
    }
    feed(runs, 0, v, q, 1, out, b, at)
}

// A span of places that is still to be fed, and how many units in it were lifted away.
#[derive(Clone, Copy, Drop)]
pub struct Pending {
    pub base: u32,
    pub len: u32,
    pub gaps: usize,
}

// How many stretches there are, and what is still to be fed.
#[derive(Clone, Copy, Drop)]
pub struct Passed {
    pub count: usize,
    pub pending: Pending,
}

// A full unit of an account taken off its stretch.
fn take_off(out: &mut [u32], c: usize, at: &[usize], a: usize)
    requires { CanTake out.old c at.now a }
    ensures { Taken out.old out.new c at.now a }
{
    let p = at[a];
    out[p - 1] -= UNIT_WORD;
}

// A full unit of each of these accounts taken off, the last first.
fn take_all(out: &mut [u32], c: usize, at: &[usize], gaps: &[usize])
    requires { CanTakeAll out.old c at.now gaps.now (length gaps.now) }
    ensures { TakenAll out.old out.new c at.now gaps.now (length gaps.now) }
{
    for j in (0..gaps.len()).rev() {
        take_off(out, c, at, gaps[j]);
    }
}

// What is still to be fed, behind c stretches; answers how many there are then.
fn feed_pending(
    runs: &[u32],
    m: usize,
    out: &mut [u32],
    c: usize,
    at: &mut [usize],
    gaps: &[usize],
    p: Pending,
) -> usize
    requires { CanFeedPending runs.now (length runs.now) m out.old c at.old gaps.now p }
    ensures { FedPending runs.now (length runs.now) m out.old out.new c at.old at.new gaps.now p result }
{
    let r = feed_span(runs, m, p.base, p.len, out, c, at);
    take_all(out, r, at, &gaps[..p.gaps]);
    r
}

// The account of the one full unit between a span and a place, where the account has a stretch.
fn gap(runs: &[u32], m: usize, at: &[usize], p: Pending, base: u32) -> Option<usize>
    requires { CanGap runs.now (length runs.now) m at.now p base }
    ensures { GapIs runs.now (length runs.now) m at.now p base result }
{
    if base == 0 {
        return None;
    }
    if base - 1 != p.base + p.len {
        return None;
    }
    if MOST_GAPS <= p.gaps {
        return None;
    }
    let d = seat(runs, m, base - 1);
    if d.wide == 0 {
        return None;
    }
    let a = (runs[d.at] % ACCOUNTS) as usize;
    if at[a] == 0 {
        return None;
    }
    Some(a)
}

// A span more. Where only a full unit stands between it and the one before, of an account that has a stretch, both
// are fed as one later, and the unit is taken off; else the one before is fed now.
fn pass(
    runs: &[u32],
    m: usize,
    out: &mut [u32],
    c: usize,
    at: &mut [usize],
    gaps: &mut [usize],
    p: Pending,
    base: u32,
    len: u32,
) -> Passed
    requires { CanPass runs.now (length runs.now) m out.old c at.old gaps.old p base len }
    ensures { HasPassed runs.now (length runs.now) m out.old out.new c at.old at.new gaps.old gaps.new p base len result }
{
    if let Some(a) = gap(runs, m, at, p, base) {
        gaps[p.gaps] = a;
        let pending = Pending {
            base: p.base,
            len: p.len + 1 + len,
            gaps: p.gaps + 1,
        };
        return Passed { count: c, pending };
    }
    let count = feed_pending(runs, m, out, c, at, gaps, p);
    let pending = Pending { base, len, gaps: 0 };
    Passed { count, pending }
}

// The stretches of the units from unit k on, of so many, dealt in turn and then lifted; answers how many. A turn passes a
// whole span, as long as lifts leave it, so no range counts the turns of the loop.
fn feed_waiting(
    runs: &[u32],
    m: usize,
    words: &[u32],
    k: u32,
    count: u32,
    out: &mut [u32],
    at: &mut [usize],
) -> usize
    requires { CanFeedWaiting runs.now (length runs.now) m words.now k count out.old at.old }
    ensures { FedWaiting runs.now (length runs.now) m words.now k out.new result }
{
    let mut gaps = [0usize; MOST_GAPS];
    let mut c: usize = 0;
    let mut q = Pending {
        base: 0,
        len: 0,
        gaps: 0,
    };
    let mut p = k;
    while p < count {
        let s = before_lifts(words, p);
        let x = s.len.min(count - p);
        let r = pass(runs, m, out, c, at, &mut gaps, q, s.base, x);
        c = r.count;
        q = r.pending;
        p += x;
    }
    feed_pending(runs, m, out, c, at, &gaps, q)
}

// An issue at its cutoff: how many stretches wait, and the position in front of all fails.
#[derive(Clone, Copy, Drop)]
pub struct Begun {
    pub n: usize,
    pub position: Position,
}

// The stretches of an issue's units that wait after a delivered total, full units dealt in turn and then
// lifted, into a lent array of 144 words; and the position in front of them.
pub fn start(nets: &[i32], lifts: &[u32], i: usize, d: u32, out: &mut [u32]) -> Begun
    requires { CanStart nets.now lifts.now i out.old }
    ensures { HasStarted nets.now lifts.now i d out.new result }
{
    let mut keys = [0u32; RANK_COUNT];
    let mut at = [0usize; ACCOUNT_COUNT];
    let p = dealing::prepare(nets, lifts, i, &mut keys, out);
    let h = handover::handover(&out[..p.lifted], d);
    let ranked = &keys[..p.ranks.n];
    let count = handover::number(ranked);
    let s = i * LIFT_WORDS;
    let e = s + LIFT_WORDS;
    let c = feed_waiting(
        ranked,
        p.ranks.full,
        &lifts[s..e],
        h.count,
        count,
        out,
        &mut at,
    );
    if c == 0 {
        return Begun {
            n: c,
            position: stand(0, 0, 0, h.stock),
        };
    }
    let key = out[0];
    Begun {
        n: c,
        position: stand(1, key % ACCOUNTS, key / ACCOUNTS - h.stock, h.stock),
    }
}
