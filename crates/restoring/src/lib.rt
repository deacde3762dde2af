// Words read back: numbers, columns and the state of a book.
#![tactic(auto)]

ghost use Rattle.std.specs.Prelude.{◌≡◌, ℕ, true, false, map, ◌*◌, length, MatchOption};
ghost use Rattle.rules.specs.Book.{all};
ghost use Rattle.checksums.specs.Sums.{below};
ghost use Rattle.columns.specs.Books.{LentLengths, SameColumns};
ghost use Rattle.snapshots.specs.Words.{phase_in, signed_in, long_in, longs_in, day_in};
ghost use Rattle.snapshots.specs.Snapshot.{snapshot_words};
ghost use Rattle.restoring.specs.Taking.{field_of, CanTake, TakenCells, CanTakeLedger, TakenLedger, Taken, numbers_fit, taken_state};

use book::state_of;
use columns::LentColumns;
use rules::{ISSUE_COUNT, Phase, State};
use snapshots::{CHARGES, DELIVERED, ENTRIES, LIFTS, LOTS, MARKS, NETS, WORDS};

// A phase of its word. The numbers are the snapshot's, which are said apart from those of the C interface: so it is not
// `host::phase_of`, and neither of the crates `restoring` and `host` stands on the other.
fn phase_in(w: u32) -> Phase
    ensures { result ≡ phase_in w }
{
    match w {
        0 => Phase::Taking,
        1 => Phase::Settling,
        _ => Phase::Cut,
    }
}

// A charge of its two words.
#[tactic(auto, using(crate::proofs::Words::long_in_lem))]
fn long_in(l: u32, h: u32) -> i64
    ensures { result ≡ long_in l h }
{
    (l as u64 + 4294967296 * (h as u64)).cast_signed()
}

// Are all words below a number?
fn all_below(words: &[u32], most: u32) -> bool
    ensures { result ≡ all (below most) words.now }
{
    let mut good = true;
    for w in words {
        good &= *w < most;
    }
    good
}

// A part of a word that a column holds.
trait Part: Copy {
    type Number: Copy;

    ghost number: { Self → ℕ → Self.Number };

    fn of(self, w: u32) -> Self::Number
        ensures { result ≡ number self w };
}

// A byte of a word: a mark, or an issue or account of an entry.
#[derive(Clone, Copy, Drop)]
enum Field {
    Mark,
    Issue,
    From,
    To,
}

impl Part for Field {
    type Number = u8;

    ghost number = { field_of };

    fn of(self, w: u32) -> u8 {
        match self {
            Field::Mark => (w % 256) as u8,
            Field::Issue => (w / 268435456 % 16) as u8,
            Field::From => (w / 4194304 % 64) as u8,
            Field::To => (w / 65536 % 64) as u8,
        }
    }
}

// The day of an entry.
#[derive(Clone, Copy, Drop)]
struct Day;

impl Part for Day {
    type Number = u16;

    ghost number = { λ d. day_in };

    fn of(self, w: u32) -> u16 {
        (w % 65536) as u16
    }
}

// A net, in two's complement.
#[derive(Clone, Copy, Drop)]
struct Net;

impl Part for Net {
    type Number = i32;

    ghost number = { λ n. signed_in };

    #[tactic(auto, using(crate::proofs::Words::signed_in_lem))]
    fn of(self, w: u32) -> i32 {
        w.cast_signed()
    }
}

// This part of each word.
fn take<P: Part>(part: P, words: &[u32], column: &mut [P::Number])
    requires { length words.now ≡ length column.old }
    ensures { column.new ≡ map (P.number part) words.now }
{
    // by index: of what a `zip` with `iter_mut` stores the library says nothing
    for (i, w) in words.iter().enumerate() {
        column[i] = part.of(*w);
    }
}

// Words as they are.
fn take32(words: &[u32], column: &mut [u32])
    requires { length words.now ≡ length column.old }
    ensures { column.new ≡ words.now }
{
    // one by one: a slice copied at once makes the archive ask its host for `memmove`
    for (i, w) in words.iter().enumerate() {
        column[i] = *w;
    }
}

// Charges of their words, two of each.
fn take_charges(words: &[u32], column: &mut [i64])
    requires { length words.now ≡ 2 * length column.old }
    ensures { column.new ≡ longs_in words.now }
{
    // by index, as in `take`; and not by `take`: two words of each
    for i in 0..column.len() {
        column[i] = long_in(words[2 * i], words[2 * i + 1]);
    }
}

// All columns but the ledger's, of their words. Four columns side by side: a struct of all nine would ask for the
// others too.
pub fn take_cells(
    words: &[u32],
    nets: &mut [i32],
    delivered: &mut [u32],
    lifts: &mut [u32],
    charges: &mut [i64],
)
    requires { CanTake words.now nets.old delivered.old lifts.old charges.old }
    ensures { TakenCells words.now nets.new delivered.new lifts.new charges.new }
{
    take(Net, &words[NETS..DELIVERED], nets);
    take32(&words[DELIVERED..LIFTS], delivered);
    take32(&words[LIFTS..CHARGES], lifts);
    take_charges(&words[CHARGES..ENTRIES], charges);
}

// The ledger's columns, of their words. Five side by side: a struct of all nine would ask for the others too.
pub fn take_ledger(
    words: &[u32],
    issues: &mut [u8],
    froms: &mut [u8],
    tos: &mut [u8],
    lots: &mut [u32],
    days: &mut [u16],
)
    requires { CanTakeLedger words.now issues.old froms.old tos.old lots.old days.old }
    ensures { TakenLedger words.now issues.new froms.new tos.new lots.new days.new }
{
    let entries = &words[ENTRIES..LOTS];
    take(Field::Issue, entries, issues);
    take(Field::From, entries, froms);
    take(Field::To, entries, tos);
    take32(&words[LOTS..WORDS], lots);
    take(Day, entries, days);
}

// All nine, of their words.
pub fn take_columns(words: &[u32], columns: &mut LentColumns)
    requires { (length words.now ≡ snapshot_words) × LentLengths columns.old }
    ensures taken { Taken words.now columns.new }
    ensures same { SameColumns columns.old columns.new }
{
    take_cells(
        words,
        columns.nets,
        columns.delivered,
        columns.lifts,
        columns.charges,
    );
    take_ledger(
        words,
        columns.issues,
        columns.froms,
        columns.tos,
        columns.lots,
        columns.days,
    );
}

// The state of its words, if its numbers fit.
pub fn take_state(words: &[u32]) -> Option<State>
    requires { length words.now ≡ snapshot_words }
    ensures { MatchOption result (numbers_fit words.now ≡ false) (λ s. (numbers_fit words.now ≡ true) × (s ≡ taken_state words.now)) }
{
    let small = all_below(&words[MARKS..NETS], 256);
    let day = words[3];
    let phase = words[4];
    if !(small & (day < 65536) & (phase < 3)) {
        return None;
    }
    let mut marks = [0u8; ISSUE_COUNT];
    take(Field::Mark, &words[MARKS..NETS], &mut marks);
    let p = phase_in(phase);
    Some(state_of((day % 65536) as u16, p, words[5] as usize, words[6], marks))
}
