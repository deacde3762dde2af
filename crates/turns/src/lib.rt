// The instructions of some words, each answered in place on the book's columns, and their lines. More words
// may come behind them.
#![tactic(auto)]

ghost use Rattle.std.specs.Prelude.{IsErr, Err, ◌≡◌, ◌+◌, ◌*◌, ◌≤◌, ◌<◌, ◌^◌, length, true};
ghost use Rattle.rules.specs.Refusals.{number_in};
ghost use Rattle.rules.specs.Run.{line, name_of};
ghost use Rattle.rules.specs.Text.{line_text};
ghost use Rattle.columns.specs.Books.{lent_book, IsReady, SameColumns};
ghost use Rattle.answers.specs.Turns.{count_in, state_after};
ghost use Rattle.report.specs.Added.{Added};
ghost use Rattle.instructions.specs.Answering.{Begins};
ghost use Rattle.passing.specs.Going.{Stepped, stray_text, Went};
ghost use Rattle.rules.specs.Measures.{output_words};
ghost use Rattle.rules.specs.Book.{sound};

use columns::LentColumns;
use passing::{answer_line, deliveries, is_enough, trades};
use rules::{Book, Instruction, Name, Refusal, State};
use waiting::Kept;

// After an instruction: where the text ends, and the state.
#[derive(Clone, Copy, Drop)]
pub struct Step {
    pub end: usize,
    pub state: State,
}

// After a part of a run: the words used, where the text ends, whether the run is over, and the state or
// the book. `over` stays a flag: both places and the state are there either way.
#[derive(Clone, Copy, Drop)]
pub struct Part<T> {
    pub used: usize,
    pub end: usize,
    pub over: bool,
    pub after: T,
}

// The name that an instruction's line has.
fn name_of(x: Instruction) -> Name
    ensures { result ≡ name_of x }
{
    match x {
        Instruction::Trade(_, _, _, _) => Name::Trade,
        Instruction::Deliver(_, _, _) => Name::Deliver,
        Instruction::Resolve(_, _, _) => Name::Resolve,
        Instruction::PairOff(_, _) => Name::PairOff,
        Instruction::Close => Name::Close,
        Instruction::Cutoff => Name::Cutoff,
        Instruction::Roll(_, _) => Name::Roll,
        Instruction::Mark(_, _) => Name::Mark,
        Instruction::Turn(_) => Name::Turn,
    }
}

// The instruction that the words begin with, answered in place, and its line.
fn turn(
    words: &[u32],
    x: Instruction,
    index: u64,
    s: State,
    columns: &mut LentColumns,
    out: &mut [u32],
    text: &mut [u8],
    at: usize,
) -> Step
    requires { Begins words.now x × IsReady s columns.old out.old × (at + 72 ≤ length text.old) }
    ensures done { Stepped words.now x index (lent_book s columns.old) text.old text.new at result.end (lent_book result.state columns.new) }
    ensures same { SameColumns columns.old columns.new }
{
    let answer = instructions::answer(words, x, s, columns, out);
    let end = answer_line(text, at, index, name_of(x), answer);
    let state = instructions::state_after(s, answer);
    Step { end, state }
}

// Why the reader refused.
fn unread(found: Result<(Instruction, usize), Refusal>) -> Refusal
    requires { IsErr found }
    ensures { found ≡ Err result }
{
    match found {
        Ok(_) => Refusal::Cut,
        Err(no) => no,
    }
}

// The line of a last word of 1 to 3 bytes, if there is one.
fn stray_line(text: &mut [u8], at: usize, index: u64, stray: bool) -> usize
    requires { at + 72 ≤ length text.old }
    ensures { Added 72 text.old text.new at result (stray_text stray index) }
{
    if stray {
        return answer_line(text, at, index, Name::Tape, Err(Refusal::Cut));
    }
    at
}

// The instructions of the words, up to the last that is sure to be whole, or to the end where no more
// words will come. A reader's refusal ends the run.
pub fn run(
    words: &[u32],
    last: bool,
    stray: bool,
    index: u64,
    s: State,
    columns: &mut LentColumns,
    out: &mut [u32],
    text: &mut [u8],
    kept: &mut [Kept],
) -> Part<State>
    requires { IsReady s columns.old out.old × (length kept.old ≡ 16) × (72 * (length words.now + 1) ≤ length text.old) × (index + length words.now < 2 ^ 64) }
    ensures done { Went words.now last stray index (lent_book s columns.old) text.new result.used result.end result.over (lent_book result.after columns.new) }
    ensures same { SameColumns columns.old columns.new }
{
    let mut at = 0;
    let mut end = 0;
    let mut state = s;
    // No range or iterator goes on by as many words as an instruction has: this loop counts its own.
    while is_enough(words.len() - at, last) {
        let found = tape::read(&words[at..]);
        let Ok((x, n)) = found else {
            let no = unread(found);
            end = answer_line(text, end, index + at as u64, Name::Tape, Err(no));
            return Part {
                used: at,
                end,
                over: true,
                after: state,
            };
        };
        let t = turn(
            &words[at..],
            x,
            index + at as u64,
            state,
            columns,
            out,
            text,
            end,
        );
        end = t.end;
        state = t.state;
        at += n;
        let p = trades(words, last, index, state, &mut *columns.nets, text, at, end);
        let d = deliveries(
            words,
            last,
            index,
            state,
            &mut *columns.nets,
            &mut *columns.delivered,
            &mut *columns.lifts,
            kept,
            text,
            p.at,
            p.end,
        );
        at = d.at;
        end = d.end;
    }
    end = stray_line(text, end, index + at as u64, last & stray);
    Part {
        used: at,
        end,
        over: last,
        after: state,
    }
}

// The book's columns are lent to the run of some words.
pub fn run_on(
    b: Book,
    words: &[u32],
    last: bool,
    stray: bool,
    index: u64,
    text: &mut [u8],
    out: &mut [u32],
    kept: &mut [Kept],
) -> Part<Book>
    requires { (sound b ≡ true) × (length kept.old ≡ 16) × (output_words ≤ length out.old) × (72 * (length words.now + 1) ≤ length text.old) × (index + length words.now < 2 ^ 64) }
    ensures { Went words.now last stray index b text.new result.used result.end result.over result.after }
{
    let Book {
        state,
        mut nets,
        mut delivered,
        mut lifts,
        mut charges,
        mut issues,
        mut froms,
        mut tos,
        mut lots,
        mut days,
    } = b;
    let mut columns = LentColumns {
        nets: &mut nets,
        delivered: &mut delivered,
        lifts: &mut lifts,
        charges: &mut charges,
        issues: &mut issues,
        froms: &mut froms,
        tos: &mut tos,
        lots: &mut lots,
        days: &mut days,
    };
    let t = run(
        words,
        last,
        stray,
        index,
        state,
        &mut columns,
        out,
        text,
        kept,
    );
    Part {
        used: t.used,
        end: t.end,
        over: t.over,
        after: Book {
            state: t.after,
            nets,
            delivered,
            lifts,
            charges,
            issues,
            froms,
            tos,
            lots,
            days,
        },
    }
}
