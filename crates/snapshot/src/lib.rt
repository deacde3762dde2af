// A snapshot of the book for hosts in C and Rust: any numbers, any columns, any words. An answer is as the C interface has it,
// the number of a reason among it.
#![tactic(auto)]

ghost use Rattle.std.specs.Prelude.{◌≡◌};
ghost use Rattle.rules.specs.Book.{fresh};
ghost use Rattle.columns.specs.Books.{shared_book, lent_book, SameColumns};
ghost use Rattle.host.specs.States.{state_in};
ghost use Rattle.snapshots.specs.Faults.{fault_number, fault_in};
ghost use Rattle.snapshot.specs.Host.{SaveIs, refused_as, OpenIs};

use columns::{LentColumns, SharedColumns, shared};
use host::{DayState, held, lengths_right, numbers_of};
use opening::open;
use rules::{ISSUE_COUNT, Phase, State};
use saving::save;
use snapshots::{Fault, WORDS};

// What opening gives a host: the reason (0: opened), and the state, that of a fresh book where it was refused. It is C's:
// so the reason is a number with a state beside it.
#[repr(C)]
#[derive(Clone, Copy, Drop)]
pub struct DayOpened {
    pub reason: u32,
    pub state: DayState,
}

// What a refusal gives a host: its number, and the state of a fresh book.
fn refused(fault: Fault) -> DayOpened
    ensures { result ≡ refused_as (fault_number fault) }
{
    let none = book::state_of(0, Phase::Taking, 0, 0, [0; ISSUE_COUNT]);
    DayOpened {
        reason: fault.number(),
        state: numbers_of(none),
    }
}

// The words of a sound book, from the output's first on. A refusal leaves the output as it came.
fn save_at(state: DayState, columns: SharedColumns, out: &mut [u32]) -> Result<(), Fault>
    ensures { SaveIs state.phase (shared_book (state_in state) columns.entry) out.old (fault_in result) out.new }
{
    if out.len() < WORDS {
        return Err(Fault::Length);
    }
    let Ok(s) = held(state, columns) else {
        return Err(Fault::Unsound);
    };
    save(s, columns, &mut out[..WORDS]);
    Ok(())
}

// The same for a host: 0 done, 1 the output has fewer words than a snapshot, 5 no sound book.
pub fn day_save(state: DayState, columns: SharedColumns, out: &mut [u32]) -> u32
    ensures { SaveIs state.phase (shared_book (state_in state) columns.entry) out.old result out.new }
{
    match save_at(state, columns, out) {
        Ok(()) => 0,
        Err(fault) => fault.number(),
    }
}

// The book of words, in lent columns: 0 opened, 1 another number of words, or a column of another length than a book's, 2
// another version, 3 the checksum, 4 a number that does not fit its field, 5 no sound book. A refusal leaves the columns.
pub fn day_open(words: &[u32], columns: &mut LentColumns) -> DayOpened
    ensures opened { OpenIs words.now result (lent_book fresh.state columns.old) (lent_book (state_in result.state) columns.new) }
    ensures same { SameColumns columns.old columns.new }
{
    if !lengths_right(shared(&*columns)) {
        return refused(Fault::Length);
    }
    match open(words, columns) {
        Ok(s) => DayOpened {
            reason: 0,
            state: numbers_of(s),
        },
        Err(fault) => refused(fault),
    }
}
