// Pair-off: fails to an account set against fails from it, first against first, in one pass.
#![tactic(auto)]

ghost use Rattle.std.specs.Prelude.{◌≡◌};
ghost use Rattle.rules.specs.Ledger.{pairing};
ghost use Rattle.rules.specs.Refusals.{number_in};
ghost use Rattle.rules.specs.Questions.{first_no};
ghost use Rattle.rules.specs.Calls.{pair_off_asks, PairOff};
ghost use Rattle.ledger.specs.Columns.{Same, held, entries_in};
ghost use Rattle.ledger.specs.Within.{on_ledger, ledger_ready};
ghost use Rattle.answers.specs.Turns.{TurnsAlone};
ghost use Rattle.stepping.specs.Steps.{pairable};
ghost use Rattle.pairing.specs.Pairs.{was_paired, few_steps};

use answers::Turn;
use falling::{next_from, next_to};
use ledger::Ledger;
use rules::{LAST_ACCOUNT, LAST_ISSUE, MOST_ENTRIES, Refusal, State};
use stepping::make_steps;

// What pair-off leaves: the steps made, the lots cancelled, the number of entries in the ledger.
#[derive(Clone, Copy, Drop)]
pub struct Steps {
    pub steps: usize,
    pub cancelled: u64,
    pub entries: usize,
}

// The first of pair-off's questions answered 'no', from the issue on.
fn pair_off_asks(i: u32, a: u32) -> Result<(), Refusal>
    ensures { number_in result ≡ first_no (pair_off_asks i a) }
{
    if LAST_ISSUE < i {
        return Err(Refusal::Issue);
    }
    if LAST_ACCOUNT < a {
        return Err(Refusal::Account);
    }
    Ok(())
}

// Pair-off in place: all steps, then entries at 0 go and later ones move up, and the entries P to Q
// follow them. Those stand in a second ledger till then. How many entries the first holds stands beside it: the number
// changes between calls, and the state has it. A column that is only read is lent by `&mut *` too: beside a lent field
// the check knows no `&*` of another.
fn pair_all(
    ledger: &mut Ledger,
    second: &mut Ledger,
    entries: usize,
    today: u16,
    i: u32,
    a: u32,
) -> Steps
    requires { pairable entries i ledger.old × held 0 second.old }
    ensures paired { was_paired (pairing today i a (entries_in entries ledger.old)) result ledger.new }
    ensures few { few_steps i a (entries_in entries ledger.old) result }
    ensures same { Same ledger.old ledger.new }
{
    let made = make_steps(
        &mut *ledger.issues,
        &mut *ledger.froms,
        &mut *ledger.tos,
        &mut *ledger.lots,
        &mut *ledger.days,
        entries,
        today,
        i,
        a,
        second,
    );
    let stay = removing::remove_zeros(ledger, entries, 0, entries);
    ledger::append_all(ledger, stay, ledger::shared(second), made.more);
    Steps {
        steps: made.steps,
        cancelled: made.cancelled,
        entries: stay + made.more,
    }
}

// Pair-off in place. Where the account has no entry to it, or none from it, nothing is done. The second ledger stands in
// arrays of this call: memory is fixed. The number of entries stands beside the ledger, as in `pair_all`.
fn pair_off_in(ledger: &mut Ledger, entries: usize, today: u16, i: u32, a: u32) -> Steps
    requires { pairable entries i ledger.old }
    ensures paired { was_paired (pairing today i a (entries_in entries ledger.old)) result ledger.new }
    ensures few { few_steps i a (entries_in entries ledger.old) result }
    ensures same { Same ledger.old ledger.new }
{
    let none = Steps {
        steps: 0,
        cancelled: 0,
        entries,
    };
    let now = ledger::shared(ledger);
    let Some(_) = next_to(now, entries, 0, i, a) else {
        return none;
    };
    let Some(_) = next_from(now, entries, 0, i, a) else {
        return none;
    };
    let mut issues: [u8; MOST_ENTRIES] = [0; MOST_ENTRIES];
    let mut froms: [u8; MOST_ENTRIES] = [0; MOST_ENTRIES];
    let mut tos: [u8; MOST_ENTRIES] = [0; MOST_ENTRIES];
    let mut lots: [u32; MOST_ENTRIES] = [0; MOST_ENTRIES];
    let mut days: [u16; MOST_ENTRIES] = [0; MOST_ENTRIES];
    let mut second = Ledger {
        issues: &mut issues,
        froms: &mut froms,
        tos: &mut tos,
        lots: &mut lots,
        days: &mut days,
    };
    pair_all(ledger, &mut second, entries, today, i, a)
}

// pair-off: the ledger's entries, unless it is refused; the count is that of the steps.
pub fn pair_off(s: State, ledger: &mut Ledger, i: u32, a: u32) -> Result<Turn, Refusal>
    requires { ledger_ready s ledger.old }
    ensures done { TurnsAlone (on_ledger ledger.old ledger.new) s (PairOff i a) result }
    ensures same { Same ledger.old ledger.new }
{
    pair_off_asks(i, a)?;
    let k = pair_off_in(ledger, s.entries, s.day, i, a);
    let next = book::with_entries(s, k.entries);
    Ok(Turn {
        count: k.steps,
        cancelled: k.cancelled,
        state: next,
    })
}
