// The instruction that some words begin with, answered in place on the columns of a sound book, a roll's quotes
// taken from its words: number, count and book are those of the run.
#![tactic(auto)]

ghost use Rattle.std.specs.Prelude.{◌≡◌, length};
ghost use Rattle.columns.specs.Books.{lent_book, IsReady, SameColumns};
ghost use Rattle.rules.specs.Run.{call_of};
ghost use Rattle.rules.specs.Tape.{quotes_of};
ghost use Rattle.answers.specs.Turns.{state_after, Makes};
ghost use Rattle.instructions.specs.Answering.{Begins, rolls_of, Quoted, AnsweredIn};

use answers::Turn;
use columns::LentColumns;
use rules::{Instruction, QUOTE_COUNT, Refusal, State};

// Does the instruction have quotes?
fn rolls(x: Instruction) -> bool
    ensures { result ≡ rolls_of x }
{
    matches!(x, Instruction::Roll(_, _))
}

// A roll's quotes, from the words after its head.
fn quotes_of(words: &[u32], x: Instruction, quotes: &mut [u32])
    requires { Begins words.now x × (length quotes.old ≡ 32) }
    ensures { Quoted words.now x quotes.new }
{
    if rolls(x) {
        tape::quotes(words, quotes);
    }
}

// The answer to the instruction that the words begin with: number, count and book are the run's, and all that it gives is
// what its call gives with this output.
pub fn answer(
    words: &[u32],
    x: Instruction,
    s: State,
    columns: &mut LentColumns,
    out: &mut [u32],
) -> Result<Turn, Refusal>
    requires { Begins words.now x × IsReady s columns.old out.old }
    ensures done { AnsweredIn words.now x (lent_book s columns.old) result (lent_book (state_after s result) columns.new) }
    ensures given { Makes s (call_of x (quotes_of words.now)) result columns.old columns.new out.old out.new }
    ensures same { SameColumns columns.old columns.new }
{
    let mut quotes = [0u32; QUOTE_COUNT];
    quotes_of(words, x, &mut quotes);
    running::answer(x, &quotes, s, columns, out)
}

// The state after an answer: one that is refused leaves it as it was.
pub fn state_after(s: State, answer: Result<Turn, Refusal>) -> State
    ensures { result ≡ state_after s answer }
{
    match answer {
        Ok(t) => t.state,
        Err(_) => s,
    }
}
