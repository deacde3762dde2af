// The book's leaves: signed nets as lots due and lots owed, an issue's rows, the phases, the state's setters, and a
// fresh book.
#![tactic(auto)]

ghost use Rattle.std.specs.Prelude.{◌≡◌, map, ◌<◌, length};
ghost use Rattle.rules.specs.Measures.{most_lots, last_day, sum, due_of, owed_of};
ghost use Rattle.rules.specs.Fails.{undelivered};
ghost use Rattle.rules.specs.Book.{in_force, is_taking, is_settling, is_cut, within_size, lots_even, state_of, with_phase, with_entries, with_turn, with_marks, next_day, fresh as fresh_of};
ghost use Rattle.book.specs.Nets.{Small, Lowered, Raised};
ghost use Rattle.book.specs.Rows.{Owing};

use rules::{
    ACCOUNT_COUNT, Book, CELL_COUNT, ISSUE_COUNT, LAST_ISSUE, LIFT_CELLS, MOST_ENTRIES, Phase,
    State,
};

// The lots due to an account with this net, 0 where it is not positive.
pub fn due(n: i32) -> u32
    ensures { result ≡ due_of n }
{
    if 0 < n { n as u32 } else { 0 }
}

// The lots that an account with this net owes, 0 where it is not negative.
pub fn owed(n: i32) -> u32
    ensures { result ≡ owed_of n }
{
    if n < 0 { (-1 - n) as u32 + 1 } else { 0 }
}

// A net that falls by lots.
pub fn lowered(n: i32, x: u32) -> i32
    requires { Small n x }
    ensures { Lowered n x result }
{
    n - (x as i32)
}

// A net that rises by lots.
pub fn raised(n: i32, x: u32) -> i32
    requires { Small n x }
    ensures { Raised n x result }
{
    n + (x as i32)
}

// the bounds of a net
const LEAST_NET: i32 = -20_000_000;

const MOST_NET: i32 = 20_000_000;

// Does the net lie in −20,000,000..20,000,000?
pub fn within(n: i32) -> bool
    ensures { result ≡ within_size most_lots n }
{
    LEAST_NET <= n && n <= MOST_NET
}

// Are lots in this issue even, if it is marked? There is no mark of an issue above 15.
fn lots_even(marks: [u8; ISSUE_COUNT], i: u32, x: u32) -> bool
    ensures { result ≡ lots_even marks i x }
{
    if LAST_ISSUE < i {
        return true;
    }
    if marks[i as usize] == 0 {
        return true;
    }
    x % 2 == 0
}

// The same by a state's marks.
pub fn even_in(s: State, i: u32, x: u32) -> bool
    ensures { result ≡ lots_even s.marks i x }
{
    lots_even(s.marks, i, x)
}

// The lots due to each account of an issue, from its nets.
pub fn dues_of(net: &[i32], dues: &mut [u32])
    requires { length dues.old ≡ length net.now }
    ensures { dues.new ≡ map due_of net.now }
{
    for (i, n) in net.iter().enumerate() {
        dues[i] = due(*n);
    }
}

// The sum of an issue's lots.
pub fn total(d: &[u32]) -> u32
    requires { sum d.now < 4294967296 }
    ensures { result ≡ sum d.now }
{
    let mut t: u32 = 0;
    for x in d {
        t += *x;
    }
    t
}

// What each account of an issue owes and has not delivered.
pub fn missing_of(net: &[i32], delivered: &[u32], short: &mut [u32])
    requires { Owing net.now delivered.now short.old }
    ensures { short.new ≡ undelivered (map owed_of net.now) delivered.now }
{
    for (i, n) in net.iter().enumerate() {
        short[i] = owed(*n) - delivered[i];
    }
}

// Is the phase Taking?
pub fn taking(p: Phase) -> bool
    ensures { result ≡ is_taking p }
{
    matches!(p, Phase::Taking)
}

// Is the phase Settling?
pub fn settling(p: Phase) -> bool
    ensures { result ≡ is_settling p }
{
    matches!(p, Phase::Settling)
}

// Is the phase Cut?
pub fn cut(p: Phase) -> bool
    ensures { result ≡ is_cut p }
{
    matches!(p, Phase::Cut)
}

// The state of these numbers. It is written by the setters below and nowhere else field by field.
pub fn state_of(
    day: u16,
    phase: Phase,
    entries: usize,
    turn: u32,
    marks: [u8; ISSUE_COUNT],
) -> State
    ensures { result ≡ state_of day phase entries turn marks }
{
    State {
        day,
        phase,
        entries,
        turn,
        marks,
    }
}

// The state in another phase.
pub fn with_phase(s: State, phase: Phase) -> State
    ensures { result ≡ with_phase s phase }
{
    State { phase, ..s }
}

// The state with another number of entries.
pub fn with_entries(s: State, entries: usize) -> State
    ensures { result ≡ with_entries s entries }
{
    State { entries, ..s }
}

// The state with other marks.
pub fn with_marks(s: State, marks: [u8; ISSUE_COUNT]) -> State
    ensures { result ≡ with_marks s marks }
{
    State { marks, ..s }
}

// The state with another first day on which full units are dealt in turn.
pub fn with_turn(s: State, turn: u32) -> State
    ensures { result ≡ with_turn s turn }
{
    State { turn, ..s }
}

// Are full units dealt in turn today?
pub fn dealt_today(s: State) -> bool
    ensures { result ≡ in_force s.turn s.day }
{
    (0 < s.turn) & (s.turn <= s.day as u32)
}

// The state of the next day, in Taking.
pub fn next_day(s: State) -> State
    requires { s.day < last_day }
    ensures { result ≡ next_day s }
{
    State {
        day: s.day + 1,
        phase: Phase::Taking,
        ..s
    }
}

// Day 0, Taking, all zero, ledger empty, no issue marked.
pub fn fresh() -> Book
    ensures { result ≡ fresh_of }
{
    Book {
        state: State {
            day: 0,
            phase: Phase::Taking,
            entries: 0,
            turn: 0,
            marks: [0; ISSUE_COUNT],
        },
        nets: [0; CELL_COUNT],
        delivered: [0; CELL_COUNT],
        lifts: [0; LIFT_CELLS],
        charges: [0; ACCOUNT_COUNT],
        issues: [0; MOST_ENTRIES],
        froms: [0; MOST_ENTRIES],
        tos: [0; MOST_ENTRIES],
        lots: [0; MOST_ENTRIES],
        days: [0; MOST_ENTRIES],
    }
}
