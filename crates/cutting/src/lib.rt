// The cutoff of one issue: the stock goes to the next unit (record 10), then the shortfalls are laid
// against what the units lack, each overlap an entry of the ledger and a record (12).
#![tactic(auto)]

ghost use Rattle.std.specs.Prelude.{◌≡◌, true, false, ◌∷◌, [], ◌+◌, ◌<◌, length};
ghost use Rattle.rules.specs.Ledger.{entry};
ghost use Rattle.rules.specs.Book.{row, order_in, CellLengths};
ghost use Rattle.rules.specs.Calls.{issue_fails};
ghost use Rattle.book.specs.Cells.{SoundCells};
ghost use Rattle.ledger.specs.Columns.{Same};
ghost use Rattle.cutting.specs.Write.{lending, fail_records, Wrote};
ghost use Rattle.cutting.specs.Issue.{counts_of, all_delivered, CanEnter, CanLay, WasLaid, CanHand, WasHanded, CanReady, IsReady, CanCut, WasCut};

use book::owed;
use ledger::Ledger;
use rules::{ACCOUNT_COUNT, Entry};
use runs::RUN_COUNT;
use units::{Cursor, Overlap};

// The entry of a fail.
fn fail(i: u8, o: Overlap, day: u16) -> Entry
    requires { (o.from < 64) × (o.to < 64) }
    ensures { result ≡ entry i o.from o.to o.lots day }
{
    Entry {
        issue: i,
        from: o.from as u8,
        to: o.to as u8,
        lots: o.lots,
        day,
    }
}

// One fail: its entry behind n others, its record at the front of the lent part of the output. Here and below n stands
// beside the ledger: it goes on from fail to fail and from issue to issue, and the state has it only after the cutoff.
fn enter(ledger: &mut Ledger, n: usize, e: Entry, out: &mut [u32])
    requires { CanEnter e n (lending ledger.old out.old) }
    ensures done { Wrote (e ∷ []) (fail_records (e ∷ [])) n (lending ledger.old out.old) (n + 1) (lending ledger.new out.new) }
    ensures same { Same ledger.old ledger.new }
{
    ledger::append(ledger, n, e);
    words::record(out, 12, e.issue as u32, e.from as u32, e.to as u32, e.lots);
}

// An issue at its cutoff: how many words its units take, the cursor in front of its fails, and its stock.
#[derive(Clone, Copy, Drop)]
pub struct Ready {
    pub n: usize,
    pub cursor: Cursor,
    pub stock: u32,
}

// Each overlap from a cursor on becomes an entry and a record; answers their number, which no range says before.
fn lay(
    runs: &[u32],
    missing: &[u32],
    p: Ready,
    i: u8,
    day: u16,
    n: usize,
    ledger: &mut Ledger,
    out: &mut [u32],
) -> usize
    requires { CanLay day i runs.now missing.now p n (lending ledger.old out.old) }
    ensures done { WasLaid day i runs.now missing.now p n (lending ledger.old out.old) result (lending ledger.new out.new) }
    ensures same { Same ledger.old ledger.new }
{
    let mut cur = p.cursor;
    let mut done: usize = 0;
    'overlaps: while let Some((o, rest)) = units::advance(&runs[..p.n], missing, cur) {
        let e = fail(i, o, day);
        enter(ledger, n + done, e, &mut out[2 * done..]);
        cur = rest;
        done += 1;
    }
    done
}

// The stock's record, if the stock is not 0, at the front of the lent part; answers how many records that is.
fn hand_stock(out: &mut [u32], i: u32, to: u32, lots: u32) -> usize
    requires { CanHand i to lots out.old }
    ensures { WasHanded i to lots result out.old out.new }
{
    if lots == 0 {
        return 0;
    }
    words::record(out, 10, i, 0, to, lots);
    1
}

// An issue's units and shortfalls into lent arrays, and where its delivered total ends: in the order of old.
fn prepare(
    nets: &[i32],
    delivered: &[u32],
    lifts: &[u32],
    i: usize,
    runs: &mut [u32],
    missing: &mut [u32],
) -> Ready
    requires { CanReady nets.now delivered.now lifts.now i runs.old missing.old }
    ensures { IsReady false nets.now delivered.now lifts.now i runs.new missing.new result }
{
    let s = i * ACCOUNT_COUNT;
    let e = s + ACCOUNT_COUNT;
    let n = units::prepare(nets, lifts, i, runs);
    let d = book::total(&delivered[s..e]);
    book::missing_of(&nets[s..e], &delivered[s..e], missing);
    let p = units::start(&mut runs[..n], d);
    let c = p.cursor;
    Ready {
        n,
        cursor: c,
        stock: p.stock,
    }
}

// The same where full units are dealt in turn. The two stay apart: they share the totals alone, and one
// function would be a branch with both bodies.
fn prepare_dealt(
    nets: &[i32],
    delivered: &[u32],
    lifts: &[u32],
    i: usize,
    runs: &mut [u32],
    missing: &mut [u32],
) -> Ready
    requires { CanReady nets.now delivered.now lifts.now i runs.old missing.old }
    ensures { IsReady true nets.now delivered.now lifts.now i runs.new missing.new result }
{
    let s = i * ACCOUNT_COUNT;
    let e = s + ACCOUNT_COUNT;
    let d = book::total(&delivered[s..e]);
    book::missing_of(&nets[s..e], &delivered[s..e], missing);
    let b = stretching::start(nets, lifts, i, d, runs);
    let p = b.position;
    let c = p.cursor;
    Ready {
        n: b.n,
        cursor: c,
        stock: p.stock,
    }
}

// The same in the order of the day: `dealt`, whether full units are dealt in turn today, is a fact of the day that the
// definitions take. So it is below. Nets, delivered lots and lifts come one by one, of the nine columns those that are asked
// for.
fn prepare_for(
    dealt: bool,
    nets: &[i32],
    delivered: &[u32],
    lifts: &[u32],
    i: usize,
    runs: &mut [u32],
    missing: &mut [u32],
) -> Ready
    requires { CanReady nets.now delivered.now lifts.now i runs.old missing.old }
    ensures { IsReady dealt nets.now delivered.now lifts.now i runs.new missing.new result }
{
    if dealt {
        return prepare_dealt(nets, delivered, lifts, i, runs, missing);
    }
    prepare(nets, delivered, lifts, i, runs, missing)
}

// Has each account delivered all that it owes?
fn all_delivered<'a>(net: &'a [i32], delivered: &'a [u32]) -> bool
    requires { length delivered.now ≡ length net.now }
    ensures { result ≡ all_delivered net.now delivered.now }
{
    let mut good = true;
    for (n, d) in net.iter().zip(delivered) {
        good &= *d == owed(*n);
    }
    good
}

// Is nothing of an issue left to be delivered? So it is of an issue without nets.
fn settled(nets: &[i32], delivered: &[u32], i: usize) -> bool
    requires { CellLengths nets.now delivered.now × (i < 16) }
    ensures { result ≡ all_delivered (row i nets.now) (row i delivered.now) }
{
    let s = i * ACCOUNT_COUNT;
    let e = s + ACCOUNT_COUNT;
    all_delivered(&nets[s..e], &delivered[s..e])
}

// How many entries the ledger has, and how many records were written.
#[derive(Clone, Copy, Drop)]
pub struct Counts {
    pub entries: usize,
    pub records: usize,
}

pub fn numbers(entries: usize, records: usize) -> Counts
    ensures { result ≡ counts_of entries records }
{
    Counts { entries, records }
}

// The cutoff of one issue, its entries behind n others, its records at the front of the lent part. One of which
// nothing is left to be delivered has none.
pub fn cut_issue(
    dealt: bool,
    nets: &[i32],
    delivered: &[u32],
    lifts: &[u32],
    i: usize,
    day: u16,
    n: usize,
    ledger: &mut Ledger,
    out: &mut [u32],
) -> Counts
    requires { CanCut dealt nets.now delivered.now lifts.now day i n (lending ledger.old out.old) }
    ensures done { WasCut dealt nets.now delivered.now lifts.now day i n (lending ledger.old out.old) result (lending ledger.new out.new) }
    ensures same { Same ledger.old ledger.new }
{
    if settled(nets, delivered, i) {
        return numbers(n, 0);
    }
    let mut runs = [0u32; RUN_COUNT];
    let mut missing = [0u32; ACCOUNT_COUNT];
    let p = prepare_for(dealt, nets, delivered, lifts, i, &mut runs, &mut missing);
    let c = p.cursor;
    let v = hand_stock(out, i as u32, c.to, p.stock);
    let m = lay(
        &runs,
        &missing,
        p,
        i as u8,
        day,
        n,
        ledger,
        &mut out[2 * v..],
    );
    numbers(n + m, v + m)
}

// How many fails an issue has.
pub fn count_issue(dealt: bool, nets: &[i32], delivered: &[u32], lifts: &[u32], i: usize) -> usize
    requires { SoundCells nets.now delivered.now lifts.now × (i < 16) }
    ensures { result ≡ length (issue_fails (order_in dealt nets.now lifts.now) nets.now delivered.now i) }
{
    if settled(nets, delivered, i) {
        return 0;
    }
    let mut runs = [0u32; RUN_COUNT];
    let mut missing = [0u32; ACCOUNT_COUNT];
    let p = prepare_for(dealt, nets, delivered, lifts, i, &mut runs, &mut missing);
    units::count(&runs[..p.n], &missing, p.cursor)
}
