// Resolve: the ledger's fails met by an account's lots.
#![tactic(auto)]

ghost use Rattle.std.specs.Prelude.{◌≡◌, ◌≤◌, length};
ghost use Rattle.rules.specs.Measures.{output_words};
ghost use Rattle.rules.specs.Refusals.{number_in};
ghost use Rattle.rules.specs.Questions.{first_no};
ghost use Rattle.rules.specs.Calls.{resolve_asks, Resolve};
ghost use Rattle.ledger.specs.Columns.{Same, whole, entries_in};
ghost use Rattle.ledger.specs.Within.{on_ledger, ledger_ready};
ghost use Rattle.answers.specs.Turns.{Turns};
ghost use Rattle.resolution.specs.Resolving.{resolvable, resolved};

use answers::Turn;
use ledger::Ledger;
use meeting::meet_at;
use rules::{LAST_ACCOUNT, LAST_ISSUE, MOST_LOTS, Refusal, State};
use seeking::{owes, seek};

// What a resolve leaves: the number of entries in the ledger, and of records written.
#[derive(Clone, Copy, Drop)]
pub struct Counts {
    pub entries: usize,
    pub records: usize,
}

// Entries of issue i from account a met by x lots in ledger order, and each that is met gives one
// record; then entries at 0 go and later ones move up. It jumps from one that was found to the next, while lots are
// left: no range says that. How many entries there are stands beside the ledger: the number changes between calls, and
// the state has it.
fn resolve_in(
    ledger: &mut Ledger,
    entries: usize,
    i: u32,
    a: u32,
    x: u32,
    out: &mut [u32],
) -> Counts
    requires { resolvable entries ledger.old out.old }
    ensures done { resolved (entries_in entries ledger.old) i a x result ledger.new out.old out.new }
    ensures same { Same ledger.old ledger.new }
{
    let now = ledger::shared(ledger);
    let Some(first) = seek(entries, 0, now.issues, now.froms, i, a) else {
        return Counts {
            entries,
            records: 0,
        };
    };
    let mut n = 0;
    let mut left = x;
    let mut k = first;
    loop {
        let e = ledger::entry_at(ledger::shared(ledger), k);
        let t = meet_at(&mut *ledger.lots, k, e, n, i, a, left, out);
        n = t.records;
        left = t.left;
        if left == 0 {
            break;
        }
        let now = ledger::shared(ledger);
        let Some(next) = seek(entries, k + 1, now.issues, now.froms, i, a) else {
            break;
        };
        k = next;
    }
    let stay = removing::remove_zeros(ledger, entries, first, k + 1);
    Counts {
        entries: stay,
        records: n,
    }
}

// The first of resolve's questions answered 'no', from the issue on.
fn resolve_asks(ledger: &Ledger, s: State, i: u32, a: u32, x: u32) -> Result<(), Refusal>
    requires { (s.entries ≤ 2048) × whole ledger.now }
    ensures { number_in result ≡ first_no (resolve_asks s.marks (entries_in s.entries ledger.now) i a x) }
{
    if LAST_ISSUE < i {
        return Err(Refusal::Issue);
    }
    if LAST_ACCOUNT < a {
        return Err(Refusal::Account);
    }
    if x < 1 || MOST_LOTS < x {
        return Err(Refusal::Lots);
    }
    if !book::even_in(s, i, x) {
        return Err(Refusal::OddLots);
    }
    if !owes(s.entries, ledger.issues, ledger.froms, ledger.lots, i, a, x) {
        return Err(Refusal::Owed);
    }
    Ok(())
}

// resolve: the ledger's entries, unless it is refused; the records go to the output.
pub fn resolve(
    s: State,
    ledger: &mut Ledger,
    i: u32,
    a: u32,
    x: u32,
    out: &mut [u32],
) -> Result<Turn, Refusal>
    requires { ledger_ready s ledger.old × (output_words ≤ length out.old) }
    ensures done { Turns (on_ledger ledger.old ledger.new) s (Resolve i a x) result out.old out.new }
    ensures same { Same ledger.old ledger.new }
{
    resolve_asks(ledger, s, i, a, x)?;
    let k = resolve_in(ledger, s.entries, i, a, x, out);
    let next = book::with_entries(s, k.entries);
    Ok(Turn {
        count: k.records,
        cancelled: 0,
        state: next,
    })
}
