// Cutoff: its questions, and all issues one after the other.
#![tactic(auto)]

ghost use Rattle.std.specs.Prelude.{◌≤◌};
ghost use Rattle.rules.specs.Calls.{Cutoff};
ghost use Rattle.book.specs.Cells.{SoundCells};
ghost use Rattle.rules.specs.Refusals.{number_in};
ghost use Rattle.answers.specs.Turns.{Turns};
ghost use Rattle.ledger.specs.Within.{on_fails, cutoff_ready};
ghost use Rattle.cutting.specs.Write.{lending};
ghost use Rattle.ledger.specs.Columns.{Same};
ghost use Rattle.cutoff.specs.All.{Fits, Asked, CanCutAll, WasCutAll};

use answers::Turn;
use cutting::{Counts, count_issue, cut_issue, numbers};
use ledger::Ledger;
use rules::{ISSUE_COUNT, MOST_ENTRIES, Phase, Refusal, State};

// The most fails of an issue.
const ISSUE_FAILS: usize = 126;

// Nets, delivered lots and lifts come one by one, of the nine columns those that are asked for. `dealt`, whether full units
// are dealt in turn today, is a fact of the day that the definitions take.

// Is there room for the entries of a cutoff of all issues behind so many old ones? Counting stops where the issues
// that are left cannot make too many, and where there are too many already.
fn has_room<'a>(
    dealt: bool,
    old: usize,
    nets: &'a [i32],
    delivered: &'a [u32],
    lifts: &'a [u32],
) -> bool
    requires { SoundCells nets.now delivered.now lifts.now × (old ≤ 2048) }
    ensures { Fits dealt old nets.now delivered.now lifts.now result }
{
    let mut n = old;
    for i in 0..ISSUE_COUNT {
        if n + ISSUE_FAILS * (ISSUE_COUNT - i) <= MOST_ENTRIES {
            return true;
        }
        if MOST_ENTRIES < n {
            return false;
        }
        n += count_issue(dealt, nets, delivered, lifts, i);
    }
    n <= MOST_ENTRIES
}

// Questions 3 and 10 of a cutoff, of a sound book: the first 'no'.
fn cutoff_asks<'a>(
    dealt: bool,
    s: State,
    nets: &'a [i32],
    delivered: &'a [u32],
    lifts: &'a [u32],
) -> Result<(), Refusal>
    requires { SoundCells nets.now delivered.now lifts.now × (s.entries ≤ 2048) }
    ensures { Asked dealt s.phase s.entries nets.now delivered.now lifts.now (number_in result) }
{
    let phase = s.phase;
    let old = s.entries;
    if !book::settling(phase) {
        return Err(Refusal::Phase);
    }
    if !has_room(dealt, old, nets, delivered, lifts) {
        return Err(Refusal::Entries);
    }
    Ok(())
}

// The cutoff of all issues, in place: entries behind the first `entries` of columns that C lends whole, records from the
// front of the output; answers how many entries and records there are then.
fn cutoff_in<'a>(
    dealt: bool,
    nets: &'a [i32],
    delivered: &'a [u32],
    lifts: &'a [u32],
    day: u16,
    entries: usize,
    ledger: &mut Ledger,
    out: &mut [u32],
) -> Counts
    requires { CanCutAll dealt nets.now delivered.now lifts.now day entries (lending ledger.old out.old) }
    ensures done { WasCutAll dealt nets.now delivered.now lifts.now day entries (lending ledger.old out.old) result (lending ledger.new out.new) }
    ensures same { Same ledger.old ledger.new }
{
    let mut n = entries;
    let mut w: usize = 0;
    for i in 0..ISSUE_COUNT {
        let k = cut_issue(
            dealt,
            nets,
            delivered,
            lifts,
            i,
            day,
            n,
            ledger,
            &mut out[2 * w..],
        );
        n = k.entries;
        w += k.records;
    }
    numbers(n, w)
}

// cutoff: the new entries behind the others, and the phase, unless it is refused; the records go to
// the output.
pub fn cutoff<'a>(
    s: State,
    nets: &'a [i32],
    delivered: &'a [u32],
    lifts: &'a [u32],
    ledger: &mut Ledger,
    out: &mut [u32],
) -> Result<Turn, Refusal>
    requires { cutoff_ready s nets delivered lifts ledger.old out }
    ensures done { Turns (on_fails nets delivered lifts ledger.old ledger.new) s Cutoff result out.old out.new }
    ensures same { Same ledger.old ledger.new }
{
    let dealt = book::dealt_today(s);
    cutoff_asks(dealt, s, nets, delivered, lifts)?;
    let k = cutoff_in(dealt, nets, delivered, lifts, s.day, s.entries, ledger, out);
    let next = book::with_entries(book::with_phase(s, Phase::Cut), k.entries);
    Ok(Turn {
        count: k.records,
        cancelled: 0,
        state: next,
    })
}
