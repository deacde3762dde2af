// The settlement-day book for hosts: functions over plain numbers and lent columns, which `host_c` exports to C. All that is
// asked of a host's book stands here: question 1 where a call is lent an output, question 2, and then the call's own function.
//
// A book goes in as a state, by value, and nine columns:
//   struct day_state {
//       uint16_t day;        0 to 65,535
//       uint32_t phase;      0 Taking, 1 Settling, 2 Cut; any other number is a damaged book
//       size_t entries;      the number of fail entries, at most 2,048
//       uint32_t turn;       the first day on which full units are dealt in turn, 0 where none is named
//       uint8_t marks[16];   of each issue 0, or another number where it is marked
//   };
//   nets, delivered     1,024 each, int32_t and uint32_t; issue i and account a stand at i * 64 + a
//   lifts               288, uint32_t; of issue i the words from i * 18 on: number of lifts, count, then eight
//                       times an old and a new place
//   charges             64, int64_t
//   issues, froms, tos  2,048 each, uint8_t; the ledger's columns
//   lots, days          2,048 each, uint32_t and uint16_t
// A column, the quotes and an output are a pointer and a length (size_t), in this order. A column of
// another length is a damaged book: no sound one, refused by 2. Every number, word and column is taken;
// nothing is assumed of them. The number returned, but for day_sound's, is the refusal's, 0 where it is
// done. A refusal leaves book and output byte for byte as they came.
#![tactic(auto)]

pub mod calls;
pub mod lifts;
pub mod questions;

ghost use Rattle.std.specs.Prelude.{◌≡◌};
ghost use Rattle.columns.specs.Books.{shared_book};
ghost use Rattle.host.specs.States.{phase_of, number_of, state_in, numbers_of, lengths_right, sound_at, Held};

use columns::SharedColumns;
use rules::{
    ACCOUNT_COUNT, CELL_COUNT, ISSUE_COUNT, LIFT_CELLS, MOST_ENTRIES, Phase, Refusal, State,
};

// A host's state: any numbers. The C interface has its phase as a number.
#[repr(C)]
#[derive(Clone, Copy, Drop)]
pub struct DayState {
    pub day: u16,
    pub phase: u32,
    pub entries: usize,
    pub turn: u32,
    pub marks: [u8; ISSUE_COUNT],
}

// What a call of a host gives: the refusal's number (0: done), the count of records (for pair-off, steps),
// pair-off's lots cancelled, and the state after it. It is returned by value to C, so that it is no Result.
#[repr(C)]
#[derive(Clone, Copy, Drop)]
pub struct DayTurned {
    pub refusal: u32,
    pub count: usize,
    pub cancelled: u64,
    pub state: DayState,
}

// The phase of a number of 0 to 2, which the C interface has.
pub fn phase_of(n: u32) -> Phase
    ensures { result ≡ phase_of n }
{
    match n {
        0 => Phase::Taking,
        1 => Phase::Settling,
        _ => Phase::Cut,
    }
}

// The number of a phase, as the C interface has it.
pub fn number_of(p: Phase) -> u32
    ensures { result ≡ number_of p }
{
    match p {
        Phase::Taking => 0,
        Phase::Settling => 1,
        Phase::Cut => 2,
    }
}

// The state of a host's numbers; a phase above 2 is no phase, and `sound_at` asks for it.
pub fn state_in(h: DayState) -> State
    ensures { result ≡ state_in h }
{
    let marks = h.marks;
    book::state_of(h.day, phase_of(h.phase), h.entries, h.turn, marks)
}

// The numbers of a state, as a host has it.
pub fn numbers_of(s: State) -> DayState
    ensures { result ≡ numbers_of s }
{
    let phase = s.phase;
    let marks = s.marks;
    DayState {
        day: s.day,
        phase: number_of(phase),
        entries: s.entries,
        turn: s.turn,
        marks,
    }
}

// Has each column the length of a book's?
pub fn lengths_right(columns: SharedColumns) -> bool
    ensures { (s : State) → result ≡ lengths_right (shared_book s columns.entry) }
{
    (columns.nets.len() == CELL_COUNT)
        & (columns.delivered.len() == CELL_COUNT)
        & (columns.lifts.len() == LIFT_CELLS)
        & (columns.charges.len() == ACCOUNT_COUNT)
        & (columns.issues.len() == MOST_ENTRIES)
        & (columns.froms.len() == MOST_ENTRIES)
        & (columns.tos.len() == MOST_ENTRIES)
        & (columns.lots.len() == MOST_ENTRIES)
        & (columns.days.len() == MOST_ENTRIES)
}

// Question 2 of a host's book, with the number of its phase: a number above 2 is no phase, and columns of other
// lengths are no book's.
pub fn sound_at(phase: u32, s: State, columns: SharedColumns) -> bool
    ensures { result ≡ sound_at phase (shared_book s columns.entry) }
{
    if 2 < phase {
        return false;
    }
    if !lengths_right(columns) {
        return false;
    }
    soundness::scan::sound_columns(s, columns)
}

// The state of a host's book, if it is sound: else question 2 refuses it.
pub fn held(state: DayState, columns: SharedColumns) -> Result<State, Refusal>
    ensures { Held state (shared_book (state_in state) columns.entry) result }
{
    let s = state_in(state);
    if sound_at(state.phase, s, columns) {
        return Ok(s);
    }
    Err(Refusal::Unsound)
}
