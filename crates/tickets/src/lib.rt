// The ticket of an unhanded unit, and whether it still holds.
// Nets, delivered lots and lifts come one by one, of the nine columns those that are asked for.
#![tactic(auto)]

ghost use Rattle.std.specs.Prelude.{◌≡◌, drop};
ghost use Rattle.rules.specs.Book.{count_at, order_in};
ghost use Rattle.rules.specs.Questions.{same_ticket};
ghost use Rattle.rules.specs.Refusals.{number_in};
ghost use Rattle.rules.specs.Calls.{asked_answer};
ghost use Rattle.runs.specs.Runs.{found_of};
ghost use Rattle.tickets.specs.Tickets.{CanStand, Stands, unhanded_ticket, CanTicket, commit_no};

use rules::{ACCOUNT_COUNT, LIFT_WORDS, MOST_LIFTS, Refusal, Ticket, Unit};

// An issue's units, in the order of old, in a lent array: how many words they take. And how many units the
// delivered total covers, and the stock, which are the same in both orders.
#[derive(Clone, Copy, Drop)]
pub struct Stand {
    pub n: usize,
    pub handed: u32,
    pub stock: u32,
}

// An issue's units into a lent array, and what its delivered total covers of them and leaves.
pub fn stand_of<'a>(
    nets: &'a [i32],
    delivered: &'a [u32],
    lifts: &'a [u32],
    i: usize,
    runs: &mut [u32],
) -> Stand
    requires { CanStand nets.now delivered.now lifts.now i runs.old }
    ensures { Stands nets.now delivered.now lifts.now i runs.new result }
{
    let s = i * ACCOUNT_COUNT;
    let e = s + ACCOUNT_COUNT;
    let n = units::prepare(nets, lifts, i, runs);
    let total = book::total(&delivered[s..e]);
    let h = handover::handover(&runs[..n], total);
    Stand {
        n,
        handed: h.count,
        stock: h.stock,
    }
}

// Unit k of an issue, full units dealt in turn, or as they stand in the lent array: a fact of the day that the
// definitions take (`order_in`). For a ticket it is looked at here and nowhere else: the callers pass it on.
#[tactic(auto, unfolding(runs::specs::Runs::units_in))]
fn unit_in<'a>(
    dealt: bool,
    nets: &'a [i32],
    lifts: &'a [u32],
    runs: &'a [u32],
    p: Stand,
    i: u32,
    k: u32,
) -> Option<Unit>
    requires { CanTicket nets.now lifts.now i runs.now p }
    ensures { result ≡ found_of (drop k (order_in dealt nets.now lifts.now i)) }
{
    if dealt {
        return dealing::unit(nets, lifts, i as usize, k);
    }
    inquiry::unit_at(&runs[..p.n], k)
}

// The ticket of unit k of an issue, full units dealt in turn or not; 16 where it is handed or there is no such
// unit.
pub fn ticket_in<'a>(
    dealt: bool,
    nets: &'a [i32],
    lifts: &'a [u32],
    runs: &'a [u32],
    p: Stand,
    day: u16,
    i: u32,
    k: u32,
) -> Result<Ticket, Refusal>
    requires { CanTicket nets.now lifts.now i runs.now p }
    ensures { asked_answer result ≡ unhanded_ticket (order_in dealt nets.now lifts.now i) p.handed day (count_at lifts.now i) i k }
{
    if k < p.handed {
        return Err(Refusal::Unit);
    }
    let Some(unit) = unit_in(dealt, nets, lifts, runs, p, i, k) else {
        return Err(Refusal::Unit);
    };
    Ok(Ticket {
        issue: i,
        unit: k,
        account: unit.account,
        lots: unit.lots,
        day: day as u32,
        count: lifts[i as usize * LIFT_WORDS + 1],
    })
}

// Are the ticket's account, lots, day and count those of the other? Issue and unit are no part of question 17, so
// that a derived == of tickets would ask more.
fn is_same(t: Ticket, u: Ticket) -> bool
    ensures { result ≡ same_ticket t u }
{
    (t.account == u.account) & (t.lots == u.lots) & (t.day == u.day) & (t.count == u.count)
}

// Questions 16, 17 and 18 of a commit, from what asking now gives and the number of lifts.
pub fn ticket_asks(t: Ticket, asked: Result<Ticket, Refusal>, number: u32) -> Result<(), Refusal>
    ensures { number_in result ≡ commit_no t (asked_answer asked) number }
{
    if !is_same(t, asked?) {
        return Err(Refusal::Ticket);
    }
    if MOST_LIFTS <= number {
        return Err(Refusal::Lifts);
    }
    Ok(())
}
