// Lifts: asking for an unhanded unit gives a ticket; committing it moves the unit before all unhanded
// ones and hands on as far as stock covers. The units are those of the order of the day.
#![tactic(auto)]

ghost use Rattle.std.specs.Prelude.{◌≡◌, ◌≤◌, length};
ghost use Rattle.rules.specs.Measures.{output_words};
ghost use Rattle.rules.specs.Calls.{asked_answer};
ghost use Rattle.book.specs.Cells.{SoundCells};
ghost use Rattle.lifting.specs.Lifting.{asked_of, Commits};

use committing::{hand_on, put_lift};
use rules::{LAST_ISSUE, LIFT_WORDS, Phase, Refusal, Ticket};
use runs::RUN_COUNT;
use tickets::{stand_of, ticket_asks, ticket_in};

// Nets, delivered lots and lifts come one by one, of the nine columns those that are asked for. `dealt`, whether full units
// are dealt in turn today, is a fact of the day that the definitions take.

// Questions 3, 4 and 16 of an ask, of a sound book; then the ticket.
pub fn ask_in<'a>(
    dealt: bool,
    phase: Phase,
    day: u16,
    nets: &'a [i32],
    delivered: &'a [u32],
    lifts: &'a [u32],
    i: u32,
    k: u32,
) -> Result<Ticket, Refusal>
    requires { SoundCells nets.now delivered.now lifts.now }
    ensures { asked_answer result ≡ asked_of dealt phase day nets.now delivered.now lifts.now i k }
{
    if !book::settling(phase) {
        return Err(Refusal::Phase);
    }
    if LAST_ISSUE < i {
        return Err(Refusal::Issue);
    }
    let mut runs = [0u32; RUN_COUNT];
    let p = stand_of(nets, delivered, lifts, i as usize, &mut runs);
    ticket_in(dealt, nets, lifts, &runs, p, day, i, k)
}

// A commit in place, of a sound book: questions 3, 4, 16, 17 and 18; then the lift stands, and the records
// go to the output. Answers their number.
pub fn commit_in(
    dealt: bool,
    phase: Phase,
    day: u16,
    nets: &[i32],
    delivered: &[u32],
    lifts: &mut [u32],
    t: Ticket,
    out: &mut [u32],
) -> Result<usize, Refusal>
    requires { SoundCells nets.now delivered.now lifts.old × (output_words ≤ length out.old) }
    ensures { Commits dealt phase day nets.now delivered.now lifts.old lifts.new t out.old out.new result }
{
    if !book::settling(phase) {
        return Err(Refusal::Phase);
    }
    if LAST_ISSUE < t.issue {
        return Err(Refusal::Issue);
    }
    let i = t.issue as usize;
    let mut runs = [0u32; RUN_COUNT];
    let p = stand_of(nets, delivered, lifts, i, &mut runs);
    let asked = ticket_in(dealt, nets, lifts, &runs, p, day, t.issue, t.unit);
    ticket_asks(t, asked, lifts[i * LIFT_WORDS])?;
    let count = hand_on(t, p.stock, out);
    put_lift(lifts, i, t.unit, p.handed);
    Ok(count)
}
