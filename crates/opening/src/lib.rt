// Words judged as a snapshot, and the book of words in lent columns.
#![tactic(auto)]

ghost use Rattle.std.specs.Prelude.{◌≡◌, length};
ghost use Rattle.rules.specs.Book.{sound};
ghost use Rattle.rules.specs.Questions.{first_no};
ghost use Rattle.columns.specs.Books.{lent_book, LentLengths, SameColumns};
ghost use Rattle.snapshots.specs.Snapshot.{snapshot_words, seal_questions};
ghost use Rattle.snapshots.specs.Faults.{fault_in};
ghost use Rattle.opening.specs.Judging.{book_with, opened_state, Judges, Opens};

use checksums::checksum;
use columns::{LentColumns, shared};
use restoring::{take_columns, take_state};
use rules::{ACCOUNT_COUNT, CELL_COUNT, LIFT_CELLS, MOST_ENTRIES, State};
use snapshots::{Fault, VERSION, WORDS};
use soundness::scan::sound_columns;

// Is this a sealed body of a snapshot's length?
fn sealed(words: &[u32]) -> Result<(), Fault>
    ensures { fault_in result ≡ first_no (seal_questions words.now) }
{
    if words.len() != WORDS {
        return Err(Fault::Length);
    }
    if words[0] != VERSION {
        return Err(Fault::Version);
    }
    let t = checksum(&words[3..]);
    if words[1] as u64 + 4294967296 * (words[2] as u64) != t {
        return Err(Fault::Checksum);
    }
    Ok(())
}

// The columns of words, taken into lent ones: are they a sound book with this state?
fn sound_in(words: &[u32], s: State, columns: &mut LentColumns) -> bool
    requires { (length words.now ≡ snapshot_words) × LentLengths columns.old }
    ensures { result ≡ sound (book_with words.now s) }
{
    take_columns(words, columns);
    sound_columns(s, shared(columns))
}

// Are words a sound book with this state? They are read into columns of their own.
fn sound_words(words: &[u32], s: State) -> bool
    requires { length words.now ≡ snapshot_words }
    ensures { result ≡ sound (book_with words.now s) }
{
    let mut nets = [0i32; CELL_COUNT];
    let mut delivered = [0u32; CELL_COUNT];
    let mut lifts = [0u32; LIFT_CELLS];
    let mut charges = [0i64; ACCOUNT_COUNT];
    let mut issues = [0u8; MOST_ENTRIES];
    let mut froms = [0u8; MOST_ENTRIES];
    let mut tos = [0u8; MOST_ENTRIES];
    let mut lots = [0u32; MOST_ENTRIES];
    let mut days = [0u16; MOST_ENTRIES];
    let mut columns = LentColumns {
        nets: &mut nets,
        delivered: &mut delivered,
        lifts: &mut lifts,
        charges: &mut charges,
        issues: &mut issues,
        froms: &mut froms,
        tos: &mut tos,
        lots: &mut lots,
        days: &mut days,
    };
    sound_in(words, s, &mut columns)
}

// All questions on words, before anything is stored: the state of their book.
fn judge(words: &[u32]) -> Result<State, Fault>
    ensures { Judges words.now (fault_in result) (opened_state result) }
{
    sealed(words)?;
    let Some(state) = take_state(words) else {
        return Err(Fault::Field);
    };
    if !sound_words(words, state) {
        return Err(Fault::Unsound);
    }
    Ok(state)
}

// The book of words, in lent columns, which stay as they came where it is refused.
pub fn open(words: &[u32], columns: &mut LentColumns) -> Result<State, Fault>
    requires { LentLengths columns.old }
    ensures opens { Opens words.now (fault_in result) (lent_book (opened_state result) columns.old) (lent_book (opened_state result) columns.new) }
    ensures same { SameColumns columns.old columns.new }
{
    let state = judge(words)?;
    take_columns(words, columns);
    Ok(state)
}
