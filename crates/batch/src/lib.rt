// Instructions of a tape's words on a host's book, for hosts in C and Rust: questions 1 and 2 are asked once, and then each
// instruction is answered in place as its call is, one after another.
#![tactic(auto)]

ghost use Rattle.std.specs.Prelude.{◌≡◌, ◌∷◌, [], ◌≤◌, ◌<◌, ◌*◌, ◌^◌, length, cond};
ghost use Rattle.rules.specs.Refusals.{number_in};
ghost use Rattle.rules.specs.Records.{over};
ghost use Rattle.columns.specs.Books.{lent_book, IsSound, IsReady, SameColumns};
ghost use Rattle.answers.specs.Turns.{count_in, cancelled_in};
ghost use Rattle.instructions.specs.Answering.{Begins};
ghost use Rattle.host.specs.States.{state_in};
ghost use Rattle.batch.specs.Batch.{answer_numbers, writes_records, has_room, within, stopped_by, CanGoOn, place_behind, ended_at, told_of, Stepped, Passed, PassedBeside, RanIs, DayRanIs};

use answers::Turn;
use columns::{LentColumns, shared};
use host::{DayState, held, numbers_of};
use rules::{Instruction, OUTPUT_WORDS, Refusal, State, number_in};
use waiting::Kept;

// of an answer: the refusal's number, the count, the lots cancelled
const ANSWER_NUMBERS: usize = 3;

// What a run gives a host: why it stopped (0: at the end of the words, or no room is left), how many instructions are answered,
// how many words they have and how many their records, and the state after them. It is C's: so the reason is a number.
#[repr(C)]
#[derive(Clone, Copy, Drop)]
pub struct DayRan {
    pub refusal: u32,
    pub answered: usize,
    pub used: usize,
    pub written: usize,
    pub state: DayState,
}

// After an instruction: the words of its records, and the state.
#[derive(Clone, Copy, Drop)]
struct Step {
    written: usize,
    state: State,
}

// Where a run stands: how many words are used, how many instructions answered, and the words of their records.
#[derive(Clone, Copy, Drop)]
struct Stand {
    used: usize,
    answered: usize,
    written: usize,
}

// Where a run ends, by a reader's refusal or without one, and the state after it.
#[derive(Clone, Copy, Drop)]
struct Ran {
    stop: Result<(), Refusal>,
    stand: Stand,
    state: State,
}

// The place behind one more instruction.
fn behind(p: Stand, words: usize, written: usize) -> Stand
    requires { CanGoOn p words written }
    ensures { result ≡ place_behind p words written }
{
    Stand {
        used: p.used + words,
        answered: p.answered + 1,
        written: p.written + written,
    }
}

// The end of a run.
fn ended(stop: Result<(), Refusal>, stand: Stand, state: State) -> Ran
    ensures { result ≡ ended_at stop stand state }
{
    Ran { stop, stand, state }
}

// Does the instruction write records?
fn writes_records(x: Instruction) -> bool
    ensures { result ≡ writes_records x }
{
    matches!(
        x,
        Instruction::Deliver(_, _, _) | Instruction::Resolve(_, _, _) | Instruction::Cutoff
    )
}

// Three numbers at the front of the answers.
fn put(refusal: u32, count: usize, cancelled: u64, answers: &mut [u64])
    requires { answer_numbers ≤ length answers.old }
    ensures { answers.new ≡ over (refusal ∷ count ∷ cancelled ∷ []) answers.old }
{
    answers[0] = refusal as u64;
    answers[1] = count as u64;
    answers[2] = cancelled;
}

// Those of an answer.
fn tell(answer: Result<Turn, Refusal>, answers: &mut [u64])
    requires { answer_numbers ≤ length answers.old }
    ensures { answers.new ≡ over (number_in answer ∷ count_in answer ∷ cancelled_in answer ∷ []) answers.old }
{
    match answer {
        Ok(t) => put(0, t.count, t.cancelled, answers),
        Err(r) => put(r.number(), 0, 0, answers),
    }
}

// The words of the records that an instruction wrote, two each. A pair-off's count is of steps.
fn words_written(x: Instruction, answer: Result<Turn, Refusal>) -> usize
    requires { cond (writes_records x) (2 * count_in answer) 0 < 2 ^ 64 }
    ensures { result ≡ cond (writes_records x) (2 * count_in answer) 0 }
{
    if !writes_records(x) {
        return 0;
    }
    match answer {
        Ok(t) => 2 * t.count,
        Err(_) => 0,
    }
}

// The instruction that the words begin with, answered in place.
fn turn(
    words: &[u32],
    x: Instruction,
    s: State,
    columns: &mut LentColumns,
    answers: &mut [u64],
    out: &mut [u32],
) -> Step
    requires { Begins words.now x × IsReady s columns.old out.old × (answer_numbers ≤ length answers.old) }
    ensures done { Stepped words.now x (lent_book s columns.old) answers.old answers.new out.old out.new result.written (lent_book result.state columns.new) }
    ensures same { SameColumns columns.old columns.new }
{
    let answer = instructions::answer(words, x, s, columns, out);
    tell(answer, answers);
    let written = words_written(x, answer);
    let state = instructions::state_after(s, answer);
    Step { written, state }
}

// Is there room for the numbers and the records of one more?
fn has_room(answers: usize, out: usize) -> bool
    ensures { result ≡ has_room answers out }
{
    (ANSWER_NUMBERS <= answers) & (OUTPUT_WORDS <= out)
}

// The trades from a place on, up to another instruction, while there is room: each is answered on the nets, and of the words for
// records `room` stay as they are.
fn trades(
    words: &[u32],
    s: State,
    columns: &mut LentColumns,
    answers: &mut [u64],
    room: usize,
    from: Stand,
) -> Stand
    requires { IsSound s columns.old × within words.now answers.old from }
    ensures done { PassedBeside words.now (lent_book s columns.old) (lent_book s columns.new) answers.old answers.new room from result }
    ensures sound { IsSound s columns.new }
    ensures same { SameColumns columns.old columns.new }
{
    let mut p = from;
    // It goes on by two words a trade, up to another instruction.
    while has_room(answers.len() - ANSWER_NUMBERS * p.answered, room) {
        let Some(t) = tape::trade_of(&words[p.used..]) else {
            return p;
        };
        let r = running::trade(s, columns, t.issue, t.from, t.to, t.lots);
        tell(r, &mut answers[ANSWER_NUMBERS * p.answered..]);
        p = behind(p, 2, 0);
    }
    p
}

// The deliveries from a place on, up to another instruction, while there is room. Where full units are not dealt in turn, each
// goes on from what is kept of its issue's units; of nothing that stood before them is anything kept.
fn deliveries(
    words: &[u32],
    s: State,
    columns: &mut LentColumns,
    kept: &mut [Kept],
    answers: &mut [u64],
    out: &mut [u32],
    from: Stand,
) -> Stand
    requires { IsSound s columns.old × (length kept.old ≡ 16) × within words.now answers.old from × (from.written ≤ length out.old) }
    ensures done { Passed words.now (lent_book s columns.old) (lent_book s columns.new) answers.old answers.new out.old out.new from result }
    ensures sound { IsSound s columns.new }
    ensures same { SameColumns columns.old columns.new }
{
    if book::dealt_today(s) || tape::delivery_of(&words[from.used..]).is_none() {
        return from;
    }
    delivery::forget(kept);
    let mut p = from;
    // It goes on by two words a delivery, up to another instruction.
    while has_room(
        answers.len() - ANSWER_NUMBERS * p.answered,
        out.len() - p.written,
    ) {
        let Some(d) = tape::delivery_of(&words[p.used..]) else {
            return p;
        };
        let r = running::deliver_kept(
            s,
            columns,
            d.issue,
            d.account,
            d.lots,
            kept,
            &mut out[p.written..],
        );
        tell(r, &mut answers[ANSWER_NUMBERS * p.answered..]);
        let x = Instruction::Deliver(d.issue, d.account, d.lots);
        p = behind(p, 2, words_written(x, r));
    }
    p
}

// The instructions of the words on a sound book: up to their end, a reader's refusal, or where no room is left.
fn run(
    words: &[u32],
    s: State,
    columns: &mut LentColumns,
    answers: &mut [u64],
    out: &mut [u32],
) -> Ran
    requires { IsSound s columns.old }
    ensures done { RanIs words.now (lent_book s columns.old) answers.old answers.new out.old out.new result (lent_book result.state columns.new) }
    ensures same { SameColumns columns.old columns.new }
{
    let mut stand = Stand {
        used: 0,
        answered: 0,
        written: 0,
    };
    let mut state = s;
    let mut kept = delivery::none_kept();
    // No range or iterator goes on by as many words as an instruction has: this loop counts its own.
    while stand.used < words.len() {
        let (x, n) = match tape::read(&words[stand.used..]) {
            Ok(read) => read,
            Err(r) => return ended(Err(r), stand, state),
        };
        let told = ANSWER_NUMBERS * stand.answered;
        if !has_room(answers.len() - told, out.len() - stand.written) {
            return ended(Ok(()), stand, state);
        }
        let t = turn(
            &words[stand.used..],
            x,
            state,
            columns,
            &mut answers[told..],
            &mut out[stand.written..],
        );
        state = t.state;
        let next = behind(stand, n, t.written);
        let room = out.len() - next.written;
        let p = trades(words, state, columns, answers, room, next);
        stand = deliveries(words, state, columns, &mut kept, answers, out, p);
    }
    ended(Ok(()), stand, state)
}

// What a run gives a host, in plain numbers.
fn told(r: Ran) -> DayRan
    ensures { result ≡ told_of r }
{
    DayRan {
        refusal: number_in(r.stop),
        answered: r.stand.answered,
        used: r.stand.used,
        written: r.stand.written,
        state: numbers_of(r.state),
    }
}

// A refusal by 1 or 2: its number, nothing done, and the state as it came.
fn refused(no: u32, state: DayState) -> DayRan
    ensures { result ≡ stopped_by no state }
{
    DayRan {
        refusal: no,
        answered: 0,
        used: 0,
        written: 0,
        state,
    }
}

// The instructions of the words on a host's book: any words, any numbers, any columns, any outputs.
pub fn day_run(
    words: &[u32],
    state: DayState,
    columns: &mut LentColumns,
    answers: &mut [u64],
    out: &mut [u32],
) -> DayRan
    ensures ran { DayRanIs words.now state answers.old answers.new out.old out.new result columns.old columns.new }
    ensures same { SameColumns columns.old columns.new }
{
    if !has_room(answers.len(), out.len()) {
        return refused(Refusal::Output.number(), state);
    }
    match held(state, shared(columns)) {
        Ok(s) => told(run(words, s, columns, answers, out)),
        Err(r) => refused(r.number(), state),
    }
}
