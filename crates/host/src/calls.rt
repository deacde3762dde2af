// The nine calls of a tape on a host's book: any numbers, any columns.
// A function answers as the C interface has it, a refusal's number and what it writes at references: the claims of every
// host are of these.
ghost use Rattle.std.specs.Prelude.{◌≡◌, []};
ghost use Rattle.rules.specs.Questions.{first_no};
ghost use Rattle.rules.specs.Refusals.{number_in};
ghost use Rattle.rules.specs.Calls.{output_asks};
ghost use Rattle.rules.specs.Run.{call_of};
ghost use Rattle.columns.specs.Books.{SameColumns};
ghost use Rattle.desk.specs.Fields.{instruction_of};
ghost use Rattle.host.specs.Calls.{refused_by, turned_of, Made, InstructionMade, Called};

use crate::{DayState, DayTurned, held, numbers_of};
use answers::Turn;
use columns::LentColumns;
use desk::fields::instruction_at;
use rules::{Instruction, OUTPUT_WORDS, Refusal};

// Question 1, of deliver, cutoff and resolve: has the output at least 4,096 words?
pub fn output_asks(x: Instruction, out: &[u32]) -> Result<(), Refusal>
    ensures { number_in result ≡ first_no (output_asks (call_of x []) out.now) }
{
    if OUTPUT_WORDS <= out.len() {
        return Ok(());
    }
    match x {
        Instruction::Deliver(_, _, _) => Err(Refusal::Output),
        Instruction::Resolve(_, _, _) => Err(Refusal::Output),
        Instruction::Cutoff => Err(Refusal::Output),
        _ => Ok(()),
    }
}

// A refusal: its number, 0 for every other number, and the state as it came. It is handed the number, as C has it.
pub fn refused(no: u32, state: DayState) -> DayTurned
    ensures { result ≡ refused_by no state }
{
    DayTurned {
        refusal: no,
        count: 0,
        cancelled: 0,
        state,
    }
}

// What a call that is done answered, in plain numbers.
fn turned(t: Turn) -> DayTurned
    ensures { result ≡ turned_of t }
{
    DayTurned {
        refusal: 0,
        count: t.count,
        cancelled: t.cancelled,
        state: numbers_of(t.state),
    }
}

// An instruction on a host's book: questions 1 and 2, and then the call.
fn made(
    x: Instruction,
    quotes: &[u32],
    state: DayState,
    columns: &mut LentColumns,
    out: &mut [u32],
) -> Result<Turn, Refusal>
    ensures done { Made x quotes.now state result columns.old columns.new out.old out.new }
    ensures same { SameColumns columns.old columns.new }
{
    output_asks(x, out)?;
    let s = held(state, columns::shared(columns))?;
    running::answer(x, quotes, s, columns, out)
}

// The call of an instruction, with roll's quotes and an output beside it.
pub fn instruction_call(
    x: Instruction,
    quotes: &[u32],
    state: DayState,
    columns: &mut LentColumns,
    out: &mut [u32],
) -> DayTurned
    ensures called { InstructionMade x quotes.now state result columns.old columns.new out.old out.new }
    ensures same { SameColumns columns.old columns.new }
{
    match made(x, quotes, state, columns, out) {
        Ok(t) => turned(t),
        Err(r) => refused(r.number(), state),
    }
}

// The same of plain numbers, where there is an instruction of this kind.
pub fn day_call(
    kind: u32,
    a: u32,
    b: u32,
    c: u32,
    d: u32,
    quotes: &[u32],
    state: DayState,
    columns: &mut LentColumns,
    out: &mut [u32],
) -> DayTurned
    ensures called { Called kind (instruction_of kind a b c d) quotes.now state result columns.old columns.new out.old out.new }
    ensures same { SameColumns columns.old columns.new }
{
    match instruction_at(kind, a, b, c, d) {
        Some(x) => instruction_call(x, quotes, state, columns, out),
        None => refused(Refusal::Word.number(), state),
    }
}
