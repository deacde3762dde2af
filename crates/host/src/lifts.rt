// The two calls of a lift on a host's book: any numbers, any columns.
// A function answers as the C interface has it, a refusal's number and what it writes at references: the claims of every
// host are of these.
ghost use Rattle.std.specs.Prelude.{◌≡◌};
ghost use Rattle.rules.specs.declared.State.{State};
ghost use Rattle.rules.specs.Calls.{asked_answer};
ghost use Rattle.columns.specs.Books.{shared_book};
ghost use Rattle.host.specs.States.{state_in};
ghost use Rattle.host.specs.Lifts.{ticket_in, AskIs, day_asked, lifting_book, CommittedIn, Committed};

use crate::{DayState, held};
use columns::SharedColumns;
use rules::{OUTPUT_WORDS, Refusal, Ticket};

// The columns of a book but its lifts: a lift only reads them.
#[derive(Clone, Copy, Drop)]
pub struct OtherColumns<'a> {
    pub nets: &'a [i32],
    pub delivered: &'a [u32],
    pub charges: &'a [i64],
    pub issues: &'a [u8],
    pub froms: &'a [u8],
    pub tos: &'a [u8],
    pub lots: &'a [u32],
    pub days: &'a [u16],
}

// The nine columns, only read.
pub fn beside<'a>(columns: OtherColumns<'a>, lifts: &'a [u32]) -> SharedColumns<'a>
    ensures { (s : State) → shared_book s result ≡ lifting_book s columns.entry lifts.now }
{
    SharedColumns {
        nets: columns.nets,
        delivered: columns.delivered,
        lifts,
        charges: columns.charges,
        issues: columns.issues,
        froms: columns.froms,
        tos: columns.tos,
        lots: columns.lots,
        days: columns.days,
    }
}

// What asking answers in plain numbers: the ticket's six, or six times 0.
pub fn ticket_out(asked: Result<Ticket, Refusal>, ticket: &mut [u32; 6]) -> u32
    ensures { AskIs (asked_answer asked) result ticket.new }
{
    match asked {
        Ok(t) => {
            *ticket = [t.issue, t.unit, t.account, t.lots, t.day, t.count];
            0
        }
        Err(r) => {
            *ticket = [0; 6];
            r.number()
        }
    }
}

// The ticket for a unit of an issue.
fn asked_at(
    state: DayState,
    columns: SharedColumns,
    issue: u32,
    unit: u32,
) -> Result<Ticket, Refusal>
    ensures { asked_answer result ≡ day_asked state.phase (shared_book (state_in state) columns.entry) issue unit }
{
    let s = held(state, columns)?;
    let phase = s.phase;
    let dealt = book::dealt_today(s);
    lifting::ask_in(
        dealt,
        phase,
        s.day,
        columns.nets,
        columns.delivered,
        columns.lifts,
        issue,
        unit,
    )
}

// Asks for a unit of an issue.
pub fn day_ask(
    state: DayState,
    columns: SharedColumns,
    issue: u32,
    unit: u32,
    ticket: &mut [u32; 6],
) -> u32
    ensures { AskIs (day_asked state.phase (shared_book (state_in state) columns.entry) issue unit) result ticket.new }
{
    ticket_out(asked_at(state, columns, issue, unit), ticket)
}

// The ticket of six numbers.
fn ticket_in(words: &[u32; 6]) -> Ticket
    ensures { result ≡ ticket_in words.now }
{
    Ticket {
        issue: words[0],
        unit: words[1],
        account: words[2],
        lots: words[3],
        day: words[4],
        count: words[5],
    }
}

// Commits a ticket: of the book only the lifts change, and the records go to the output. Answers their number.
fn commit_at(
    t: Ticket,
    state: DayState,
    columns: OtherColumns,
    lifts: &mut [u32],
    out: &mut [u32],
) -> Result<usize, Refusal>
    ensures { CommittedIn state.phase (lifting_book (state_in state) columns.entry lifts.old) t out.old lifts.new out.new result }
{
    if out.len() < OUTPUT_WORDS {
        return Err(Refusal::Output);
    }
    let s = held(state, beside(columns, lifts))?;
    let phase = s.phase;
    let dealt = book::dealt_today(s);
    lifting::commit_in(
        dealt,
        phase,
        s.day,
        columns.nets,
        columns.delivered,
        lifts,
        t,
        out,
    )
}

// The same of a ticket of six numbers, in plain numbers.
pub fn day_commit(
    ticket: &[u32; 6],
    state: DayState,
    columns: OtherColumns,
    lifts: &mut [u32],
    out: &mut [u32],
    count: &mut usize,
) -> u32
    ensures { Committed state.phase (lifting_book (state_in state) columns.entry lifts.old) ticket.now out.old lifts.new out.new result count.new }
{
    *count = 0;
    match commit_at(ticket_in(ticket), state, columns, lifts, out) {
        Ok(n) => {
            *count = n;
            0
        }
        Err(r) => r.number(),
    }
}
