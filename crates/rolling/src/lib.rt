// roll: its questions, and its effect in place, on all columns of a book.
#![tactic(auto)]

ghost use Rattle.std.specs.Prelude.{◌≡◌, length};
ghost use Rattle.rules.specs.Refusals.{number_in};
ghost use Rattle.rules.specs.Questions.{first_no, quotes_right};
ghost use Rattle.rules.specs.Calls.{roll_asks, Roll};
ghost use Rattle.columns.specs.Books.{IsSound, SameColumns};
ghost use Rattle.answers.specs.Turns.{MakesAlone};

use answers::Turn;
use charging::charge_entries;
use columns::{LentColumns, SharedLedger};
use rules::{ISSUE_COUNT, QUOTE_COUNT, Refusal, State};

// Are price and accrued amount of each issue right?
fn quotes_right(quotes: &[u32]) -> bool
    requires { length quotes.now ≡ 32 }
    ensures { result ≡ quotes_right quotes.now }
{
    let mut good = true;
    for i in 0..ISSUE_COUNT {
        good = good & measures::quote_right(quotes[i], quotes[ISSUE_COUNT + i]);
    }
    good
}

// roll's questions but that of soundness: the refusal of the first 'no'.
fn roll_asks(s: State, days: u32, rate: u32, quotes: &[u32]) -> Result<(), Refusal>
    ensures { number_in result ≡ first_no (roll_asks s.phase s.day days rate quotes.now) }
{
    let today = s.day;
    let phase = s.phase;
    if !book::cut(phase) {
        return Err(Refusal::Phase);
    }
    if !measures::term_right(days, rate) {
        return Err(Refusal::Terms);
    }
    if quotes.len() != QUOTE_COUNT {
        return Err(Refusal::Terms);
    }
    if !quotes_right(quotes) {
        return Err(Refusal::Terms);
    }
    if today < 65_535 {
        return Ok(());
    }
    Err(Refusal::Day)
}

// roll: each entry is charged, nets and delivered lots are 0, lifts and counts are cleared, and the next day begins,
// unless it is refused. The ledger, only read, is lent by `&mut *`: beside a lent field the check knows no `&*` of another.
pub fn roll(
    s: State,
    columns: &mut LentColumns,
    days: u32,
    rate: u32,
    quotes: &[u32],
) -> Result<Turn, Refusal>
    requires { IsSound s columns.old }
    ensures made { MakesAlone s (Roll days rate quotes.now) result columns.old columns.new }
    ensures same { SameColumns columns.old columns.new }
{
    roll_asks(s, days, rate, quotes)?;
    let ledger = SharedLedger {
        issues: &mut *columns.issues,
        froms: &mut *columns.froms,
        tos: &mut *columns.tos,
        lots: &mut *columns.lots,
        days: &mut *columns.days,
    };
    charge_entries(ledger, s.entries, days, rate, quotes, &mut *columns.charges);
    columns.nets.fill(0);
    columns.delivered.fill(0);
    columns.lifts.fill(0);
    let next = book::next_day(s);
    Ok(answers::done(next))
}
