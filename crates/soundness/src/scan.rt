// The scan of a book for soundness, column by column.
ghost use Rattle.std.specs.Prelude.{◌≡◌};
ghost use Rattle.rules.specs.Book.{sound as soundOf};
ghost use Rattle.columns.specs.Books.{shared_book, SharedLengths};

use balancing::{cells_even, entries_even, nets_sound};
use bookkeeping::{charges_sound, delivered_sound, ledger_sound};
use columns::{SharedColumns, ledger_of};
use placing::lifts_sound;
use rules::State;

// Is the book of a state and these columns sound?
pub fn sound_columns(s: State, columns: SharedColumns) -> bool
    requires { SharedLengths columns }
    ensures { result ≡ soundOf (shared_book s columns.entry) }
{
    let day = s.day;
    let phase = s.phase;
    let nets = columns.nets;
    let delivered = columns.delivered;
    let cells = nets_sound(nets, delivered);
    let taken = delivered_sound(phase, delivered);
    let ledger = ledger_sound(s, ledger_of(columns));
    let yen = charges_sound(day, columns.charges);
    if !(cells & taken & ledger & yen) {
        return false;
    }
    let lifted = lifts_sound(phase, nets, delivered, columns.lifts);
    let cells = cells_even(s, nets, delivered);
    let entries = entries_even(s, columns.issues, columns.lots);
    lifted & cells & entries
}
