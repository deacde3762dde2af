// deliver: an account's delivered lots rise, and the next units are handed over whole, in the order of the
// day.
#![tactic(auto)]

ghost use Rattle.std.specs.Prelude.{◌≡◌, length};
ghost use Rattle.rules.specs.Refusals.{number_in};
ghost use Rattle.rules.specs.Questions.{first_no};
ghost use Rattle.rules.specs.Calls.{raised_delivered, raised_count, deliver_asks, Deliver};
ghost use Rattle.book.specs.Cells.{OwedCells};
ghost use Rattle.answers.specs.Turns.{Turns, on_delivered, deliver_ready};
ghost use Rattle.delivery.specs.Deliver.{CanRaise, CanDeliver, Delivered, KeepsEach, NoneKept, CanMake, Made, count_ready, Counts, CanHandKept, HandsKept, kept_ready};

use answers::Turn;
use rules::{ACCOUNT_COUNT, ISSUE_COUNT, LAST_ACCOUNT, LAST_ISSUE, LIFT_WORDS, Refusal, State};
use runs::RUN_COUNT;
use serving::serve_in;
use waiting::Kept;

// Three of the nine columns, one by one: the struct of all would lend those too that no delivery may change. `dealt`,
// whether full units are dealt in turn today, is a fact of the day that the definitions take.

// The account's delivered lots rise by x, and the issue's count by 1.
fn raise(delivered: &mut [u32], lifts: &mut [u32], i: u32, a: u32, x: u32)
    requires { CanRaise delivered.old lifts.old i a x }
    ensures { (delivered.new ≡ raised_delivered delivered.old i a x) × (lifts.new ≡ raised_count lifts.old i) }
{
    let at = i as usize * ACCOUNT_COUNT + a as usize;
    delivered[at] += x;
    let c = i as usize * LIFT_WORDS + 1;
    lifts[c] += 1;
}

// A delivery in place: the account's delivered lots rise by x, and the issue's count by 1; answers the
// number of records written.
fn deliver_in(
    dealt: bool,
    nets: &[i32],
    delivered: &mut [u32],
    lifts: &mut [u32],
    i: u32,
    a: u32,
    x: u32,
    out: &mut [u32],
) -> usize
    requires { CanDeliver nets.now delivered.old lifts.old i a x out.old }
    ensures { Delivered dealt nets.now delivered.old delivered.new lifts.old lifts.new i a x out.old out.new result }
{
    let s = i as usize * ACCOUNT_COUNT;
    let e = s + ACCOUNT_COUNT;
    let d = book::total(&delivered[s..e]);
    let n = serve_in(dealt, nets, lifts, i, d, x, out);
    raise(delivered, lifts, i, a, x);
    n
}

// Questions 3, 4, 5, 7, 19 and 9 of a delivery: the refusal of the first 'no'.
fn deliver_asks<'a>(
    s: State,
    nets: &'a [i32],
    delivered: &'a [u32],
    i: u32,
    a: u32,
    x: u32,
) -> Result<(), Refusal>
    requires { OwedCells nets.now delivered.now }
    ensures { number_in result ≡ first_no (deliver_asks s.phase s.marks nets.now delivered.now i a x) }
{
    let phase = s.phase;
    if !book::settling(phase) {
        return Err(Refusal::Phase);
    }
    if LAST_ISSUE < i {
        return Err(Refusal::Issue);
    }
    if LAST_ACCOUNT < a {
        return Err(Refusal::Account);
    }
    if !measures::lots_right(x) {
        return Err(Refusal::Lots);
    }
    if !book::even_in(s, i, x) {
        return Err(Refusal::OddLots);
    }
    let at = i as usize * ACCOUNT_COUNT + a as usize;
    let n = nets[at];
    if book::owed(n) < delivered[at] + x {
        return Err(Refusal::Owed);
    }
    Ok(())
}

// deliver: the account's delivered lots and the issue's count, unless it is refused; the records go to
// the output.
pub fn deliver(
    s: State,
    nets: &[i32],
    delivered: &mut [u32],
    lifts: &mut [u32],
    i: u32,
    a: u32,
    x: u32,
    out: &mut [u32],
) -> Result<Turn, Refusal>
    requires { deliver_ready s nets delivered lifts out }
    ensures { Turns (on_delivered nets delivered lifts) s (Deliver i a x) result out.old out.new }
{
    deliver_asks(s, nets, delivered, i, a, x)?;
    let dealt = book::dealt_today(s);
    let count = deliver_in(dealt, nets, delivered, lifts, i, a, x, out);
    Ok(Turn {
        count,
        cancelled: 0,
        state: s,
    })
}

// Nothing is kept of any issue.
pub fn none_kept() -> [Kept; ISSUE_COUNT]
    ensures { (length result ≡ 16) × NoneKept result }
{
    let none = Kept {
        runs: [0; RUN_COUNT],
        number: 0,
        first: 0,
        stock: 0,
    };
    [none; ISSUE_COUNT]
}

// Nothing is kept any more.
pub fn forget(kept: &mut [Kept])
    ensures { NoneKept kept.new }
{
    for k in kept.iter_mut() {
        k.number = 0;
    }
}

// What waits of an issue's units is kept, where nothing is yet.
fn make(nets: &[i32], delivered: &[u32], lifts: &[u32], i: usize, kept: &mut [Kept])
    requires { CanMake nets.now delivered.now lifts.now i kept.old }
    ensures { Made nets.now delivered.now lifts.now i kept.new }
{
    if kept[i].number == 0 {
        let s = i * ACCOUNT_COUNT;
        let e = s + ACCOUNT_COUNT;
        let d = book::total(&delivered[s..e]);
        kept[i] = waiting::keep(nets, lifts, i, d);
    }
}

// A delivery whose records nobody reads: number, count and book are those of `deliver`, and what waits of the issue's units
// is kept for the next one.
pub fn deliver_counted(
    s: State,
    nets: &[i32],
    delivered: &mut [u32],
    lifts: &mut [u32],
    i: u32,
    a: u32,
    x: u32,
    kept: &mut [Kept],
) -> Result<Turn, Refusal>
    requires { count_ready s nets delivered lifts kept }
    ensures told { Counts (on_delivered nets delivered lifts) s (Deliver i a x) result }
    ensures kept { KeepsEach nets.now delivered.new lifts.new kept.new }
{
    deliver_asks(s, nets, delivered, i, a, x)?;
    let n = i as usize;
    make(nets, delivered, lifts, n, kept);
    raise(delivered, lifts, i, a, x);
    let count = waiting::more(&mut kept[n], x) as usize;
    Ok(Turn {
        count,
        cancelled: 0,
        state: s,
    })
}

// The units of what waits of an issue that x more lots cover: their records go to the output, and what waits then is kept;
// answers their number.
fn hand_kept(k: &mut Kept, i: u32, x: u32, out: &mut [u32]) -> usize
    requires { CanHandKept k.old i x out.old }
    ensures { HandsKept k.old k.new i x out.old out.new result }
{
    let runs = &k.runs[k.first..k.number];
    let count = handover::handover(runs, k.stock + x).count as usize;
    handing::hand(runs, i, 0, count, out);
    waiting::more(k, x);
    count
}

// A delivery on a day of the old order, answered as `deliver` is: the units come from what is kept of the issue, and what
// waits then is kept for the next one.
pub fn deliver_kept(
    s: State,
    nets: &[i32],
    delivered: &mut [u32],
    lifts: &mut [u32],
    i: u32,
    a: u32,
    x: u32,
    kept: &mut [Kept],
    out: &mut [u32],
) -> Result<Turn, Refusal>
    requires { kept_ready s nets delivered lifts kept out }
    ensures turned { Turns (on_delivered nets delivered lifts) s (Deliver i a x) result out.old out.new }
    ensures kept { KeepsEach nets.now delivered.new lifts.new kept.new }
{
    deliver_asks(s, nets, delivered, i, a, x)?;
    let n = i as usize;
    make(nets, delivered, lifts, n, kept);
    raise(delivered, lifts, i, a, x);
    let count = hand_kept(&mut kept[n], i, x, out);
    Ok(Turn {
        count,
        cancelled: 0,
        state: s,
    })
}
