// A book's columns laid one behind the other as words, and sealed.
#![tactic(auto)]

ghost use Rattle.std.specs.Prelude.{◌≡◌, ℕ, true, [], ◌∷◌, map, ◌+◌, ◌*◌, ◌≤◌, length, drop};
ghost use Rattle.std.proofs.lemmas.List.Edits.{sets};
ghost use Rattle.rules.specs.Book.{all};
ghost use Rattle.checksums.specs.Sums.{word_size, below};
ghost use Rattle.columns.specs.Books.{shared_book};
ghost use Rattle.snapshots.specs.Words.{phase_word, signed_word, low_word, high_word, long_words, entry_word, entry_words, Fields, joined};
ghost use Rattle.snapshots.specs.Snapshot.{seal, snapshot_words};
ghost use Rattle.saving.specs.Laying.{cell_columns, ledger_columns, CanPack, CanPut, CanPutLedger, CanSave, Saves};

use checksums::checksum;
use columns::SharedColumns;
use rules::{Phase, State};
use snapshots::{CHARGES, DELIVERED, ENTRIES, LIFTS, LOTS, MARKS, NETS, VERSION};

// A number of a column that is stored as a word.
trait Word: Copy {
    ghost word: { Self → ℕ };

    fn word(self) -> u32
        ensures { result ≡ word self };
}

// A mark.
impl Word for u8 {
    ghost word = { λ n. n };

    fn word(self) -> u32 {
        u32::from(self)
    }
}

// A net, in two's complement.
impl Word for i32 {
    ghost word = { signed_word };

    #[tactic(auto, using(crate::proofs::Signed::signed_word_lem))]
    fn word(self) -> u32 {
        self.cast_unsigned()
    }
}

// The two halves of a charge.
#[tactic(auto, using(crate::proofs::Signed::low_word_lem))]
fn low_word(c: i64) -> u32
    ensures { result ≡ low_word c }
{
    (c.cast_unsigned() % 4294967296) as u32
}

#[tactic(auto, using(crate::proofs::Signed::high_word_lem))]
fn high_word(c: i64) -> u32
    ensures { result ≡ high_word c }
{
    (c.cast_unsigned() / 4294967296) as u32
}

// A phase as a word: the numbers are the snapshot's, as in `restoring::phase_in`; `host::number_of` has those of the C
// interface.
fn phase_word(p: Phase) -> u32
    ensures { result ≡ phase_word p }
{
    match p {
        Phase::Taking => 0,
        Phase::Settling => 1,
        Phase::Cut => 2,
    }
}

// An entry but for its lots, in one word.
fn entry_word(issue: u8, from: u8, to: u8, day: u16) -> u32
    requires { Fields issue from to day }
    ensures { result ≡ entry_word issue from to day }
{
    268435456 * (issue as u32) + 4194304 * (from as u32) + 65536 * (to as u32) + day as u32
}

// A column's numbers as words, from a place on.
fn put<N: Word>(column: &[N], out: &mut [u32], at: usize)
    requires { at + length column.now ≤ length out.old }
    ensures { out.new ≡ sets out.old at (map N.word column.now) }
{
    // by index: of what a `zip` with `iter_mut` stores the library says nothing
    for (i, n) in column.iter().enumerate() {
        out[at + i] = n.word();
    }
}

// The same of words, which are stored as they are.
fn put32(column: &[u32], out: &mut [u32], at: usize)
    requires { at + length column.now ≤ length out.old }
    ensures stored { out.new ≡ sets out.old at column.now }
    ensures words { all (below word_size) column.now ≡ true }
{
    // one by one: a slice copied at once makes the archive ask its host for `memmove`
    for (i, x) in column.iter().enumerate() {
        out[at + i] = *x;
    }
}

// Charges as words, two of each.
fn put_charges(column: &[i64], out: &mut [u32], at: usize)
    requires { at + 2 * length column.now ≤ length out.old }
    ensures { out.new ≡ sets out.old at (long_words column.now) }
{
    // by index, as in `put`; and not by `put`: two words of each
    for (i, c) in column.iter().enumerate() {
        out[at + 2 * i] = low_word(*c);
        out[at + 2 * i + 1] = high_word(*c);
    }
}

// Entries but for their lots, a word each.
fn put_entries(columns: SharedColumns, out: &mut [u32], at: usize)
    requires { CanPack columns.issues.now columns.froms.now columns.tos.now columns.days.now out.old at }
    ensures { out.new ≡ sets out.old at (entry_words columns.entry.issues.now columns.entry.froms.now columns.entry.tos.now columns.entry.days.now) }
{
    let SharedColumns {
        issues,
        froms,
        tos,
        days,
        ..
    } = columns;
    // by index: an entry stands in four columns at one place
    for i in 0..issues.len() {
        out[at + i] = entry_word(issues[i], froms[i], tos[i], days[i]);
    }
}

// Day, phase, number of entries and first day of the new order.
fn put_state(s: State, out: &mut [u32])
    requires { (s.entries ≤ 2048) × (length out.old ≡ snapshot_words) }
    ensures { out.new ≡ sets out.old 3 (s.day ∷ phase_word s.phase ∷ s.entries ∷ s.turn ∷ []) }
{
    let p = s.phase;
    out[3] = s.day as u32;
    out[4] = phase_word(p);
    out[5] = s.entries as u32;
    out[6] = s.turn;
}

// Version and checksum before a body.
fn put_seal(out: &mut [u32])
    requires { length out.old ≡ snapshot_words }
    ensures { out.new ≡ seal (drop 3 out.old) }
{
    let t = checksum(&out[3..]);
    out[0] = VERSION;
    out[1] = (t % 4294967296) as u32;
    out[2] = (t / 4294967296) as u32;
}

// All but the ledger.
fn put_cells(s: State, columns: SharedColumns, out: &mut [u32])
    requires { CanPut s columns out.old }
    ensures stored { out.new ≡ sets out.old 3 (joined (cell_columns s columns.entry)) }
    ensures words { all (below word_size) columns.entry.lifts.now ≡ true }
{
    let marks = s.marks;
    put_state(s, out);
    put(&marks, out, MARKS);
    put(columns.nets, out, NETS);
    put32(columns.delivered, out, DELIVERED);
    put32(columns.lifts, out, LIFTS);
    put_charges(columns.charges, out, CHARGES);
}

// The ledger.
fn put_ledger(columns: SharedColumns, out: &mut [u32])
    requires { CanPutLedger columns out.old }
    ensures { out.new ≡ sets out.old 2487 (joined (ledger_columns columns.entry)) }
{
    put_entries(columns, out, ENTRIES);
    put32(columns.lots, out, LOTS);
}

// The words of a sound book.
pub fn save(s: State, columns: SharedColumns, out: &mut [u32])
    requires { CanSave s columns out.old }
    ensures { Saves (shared_book s columns.entry) out.new }
{
    put_cells(s, columns, out);
    put_ledger(columns, out);
    put_seal(out);
}
