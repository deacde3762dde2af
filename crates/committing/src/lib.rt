// What a commit does in place: the lifted unit handed on where stock covers it, and one lift more in the column.
#![tactic(auto)]

ghost use Rattle.std.specs.Prelude.{◌≡◌};
ghost use Rattle.rules.specs.Lifts.{lift_of};
ghost use Rattle.rules.specs.Calls.{with_lift};
ghost use Rattle.committing.specs.Committing.{CanHandOn, HandedOn, CanPut};

use rules::{LIFT_WORDS, Ticket};

// The ticket's unit, before all unhanded ones now, handed over where the stock covers it. No second one is:
// the stock is less than the unit that was to be the next. Answers the number of records.
pub fn hand_on(t: Ticket, stock: u32, out: &mut [u32]) -> usize
    requires { CanHandOn t out.old }
    ensures { HandedOn t stock out.old out.new result }
{
    if stock < t.lots {
        return 0;
    }
    words::record(out, 10, t.issue, 0, t.account, t.lots);
    1
}

// One lift more stands for an issue, and its count rises.
pub fn put_lift(lifts: &mut [u32], i: usize, old: u32, new: u32)
    requires { CanPut lifts.old i }
    ensures { lifts.new ≡ with_lift lifts.old i (lift_of old new) }
{
    let s = i * LIFT_WORDS;
    let number = lifts[s];
    let at = s + 2 * number as usize + 2;
    lifts[s + 1] = lifts[s + 1] + 1;
    lifts[s] = number + 1;
    lifts[at] = old;
    lifts[at + 1] = new;
}
