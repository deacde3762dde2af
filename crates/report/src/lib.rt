// The lines behind a run's: the ledger's entries, then the charges.
#![tactic(auto)]

pub mod text;

ghost use Rattle.std.specs.Prelude.{[], ◌∷◌, ◌+◌, ◌*◌, ◌≤◌, length};
ghost use Rattle.columns.specs.Books.{SharedLengths};
ghost use Rattle.rules.specs.Run.{charge_lines_from};
ghost use Rattle.rules.specs.Text.{fails_text, charges_text, closing_text};
ghost use Rattle.report.specs.Added.{Added};
ghost use Rattle.report.specs.Entries.{shared_entries};

use columns::SharedColumns;
use rules::Book;

// A line for each entry, in ledger order. The number of entries stands beside the columns: the definitions take whole
// columns and the number of entries, and cutting each column at each call is no plainer.
fn fails(text: &mut [u8], entries: usize, columns: SharedColumns) -> usize
    requires { (entries ≤ 2048) × (107 * entries ≤ length text.old) × SharedLengths columns }
    ensures { Added (107 * entries) text.old text.new 0 result (fails_text (shared_entries entries columns.entry)) }
{
    let mut at = 0;
    for k in 0..entries {
        at = text::fail(
            text,
            at,
            columns.issues[k],
            columns.froms[k],
            columns.tos[k],
            columns.lots[k],
            columns.days[k],
        );
    }
    at
}

// The line of an account's charge, none where it is 0.
fn charge(text: &mut [u8], at: usize, account: usize, yen: i64) -> usize
    requires { at + 45 ≤ length text.old }
    ensures { Added 45 text.old text.new at result (charges_text (charge_lines_from account (yen ∷ []))) }
{
    if yen == 0 {
        return at;
    }
    text::charge(text, at, account, yen)
}

// A line for each charge that is not 0, by account.
fn charges(text: &mut [u8], at: usize, charges: &[i64]) -> usize
    requires { at + 45 * length charges.now ≤ length text.old }
    ensures { Added (45 * length charges.now) text.old text.new at result (charges_text (charge_lines_from 0 charges.now)) }
{
    let mut end = at;
    for (a, yen) in charges.iter().enumerate() {
        end = charge(text, end, a, *yen);
    }
    end
}

// All of these lines, for a book; answers where they end.
pub fn closing(text: &mut [u8], b: Book) -> usize
    requires { (b.state.entries ≤ 2048) × (222016 ≤ length text.old) }
    ensures { Added 222016 text.old text.new 0 result (closing_text b) }
{
    let entries = b.state.entries;
    let columns = SharedColumns {
        nets: &b.nets,
        delivered: &b.delivered,
        lifts: &b.lifts,
        charges: &b.charges,
        issues: &b.issues,
        froms: &b.froms,
        tos: &b.tos,
        lots: &b.lots,
        days: &b.days,
    };
    let at = fails(text, entries, columns);
    charges(text, at, columns.charges)
}
