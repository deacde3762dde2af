// A snapshot of the book for hosts in C and Rust: any numbers, any columns, any words. Each call is that of the library
// `snapshot`, with the same contract. C lends nine columns, so they are parameters here.
#![tactic(auto)]

ghost use Rattle.rules.specs.Book.{fresh};
ghost use Rattle.book.specs.States.{shared_columns, columns};
ghost use Rattle.host.specs.States.{book_at, state_in};
ghost use Rattle.snapshot.specs.Host.{SaveIs, OpenIs};

use columns::{LentColumns, SharedColumns};
use host::DayState;
use snapshot::DayOpened;

// The words of a sound book, from the output's first on: 0 done, 1 the output has fewer words than a snapshot, 5 no sound
// book. A refusal leaves the output as it came.
#[unsafe(no_mangle)]
pub extern "C" fn day_save<'a>(
    state: DayState,
    nets: &'a [i32],
    delivered: &'a [u32],
    lifts: &'a [u32],
    charges: &'a [i64],
    issues: &'a [u8],
    froms: &'a [u8],
    tos: &'a [u8],
    lots: &'a [u32],
    days: &'a [u16],
    out: &mut [u32],
) -> u32
    ensures { SaveIs state.phase (book_at state (shared_columns nets delivered lifts charges issues froms tos lots days)) out.old result out.new }
{
    let columns = SharedColumns {
        nets,
        delivered,
        lifts,
        charges,
        issues,
        froms,
        tos,
        lots,
        days,
    };
    snapshot::day_save(state, columns, out)
}

// The book of words, in lent columns: 0 opened, 1 another number of words, or a column of another length than a book's, 2
// another version, 3 the checksum, 4 a number that does not fit its field, 5 no sound book. A refusal leaves the columns.
#[unsafe(no_mangle)]
pub extern "C" fn day_open<'a>(
    words: &'a [u32],
    nets: &mut [i32],
    delivered: &mut [u32],
    lifts: &mut [u32],
    charges: &mut [i64],
    issues: &mut [u8],
    froms: &mut [u8],
    tos: &mut [u8],
    lots: &mut [u32],
    days: &mut [u16],
) -> DayOpened
    ensures { let c = columns nets delivered lifts charges issues froms tos lots days in OpenIs words.now result (c.before fresh.state) (c.after (state_in result.state)) }
{
    let mut columns = LentColumns {
        nets: &mut *nets,
        delivered: &mut *delivered,
        lifts: &mut *lifts,
        charges: &mut *charges,
        issues: &mut *issues,
        froms: &mut *froms,
        tos: &mut *tos,
        lots: &mut *lots,
        days: &mut *days,
    };
    snapshot::day_open(words, &mut columns)
}
