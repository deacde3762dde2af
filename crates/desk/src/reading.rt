// The tape's reader and writer on plain numbers, which the C interface has, the number of a refusal among them.
ghost use Rattle.std.specs.Prelude.{◌≡◌, replicate};
ghost use Rattle.std.proofs.lemmas.List.Edits.{sets};
ghost use Rattle.rules.specs.Refusals.{numbered};
ghost use Rattle.rules.specs.Tape.{read_of, read_answer, quotes_of};
ghost use Rattle.writing.specs.Answers.{written};
ghost use Rattle.desk.specs.Fields.{instruction_of};
ghost use Rattle.desk.specs.Words.{ReadIs, day_written, plainly_written};

use crate::fields::{fields, instruction_at};
use crate::plain;
use rules::{Instruction, QUOTE_COUNT, Refusal, TAPE_WORDS};

// The reader's answer in plain numbers: 0 in every place on a refusal.
fn read_out(
    read: Result<(Instruction, usize), Refusal>,
    instruction: &mut [u32; 5],
    count: &mut usize,
) -> u32
    ensures { ReadIs (read_answer (numbered read)) result instruction.new count.new }
{
    match read {
        Ok((x, n)) => {
            *instruction = fields(x);
            *count = n;
            0
        }
        Err(no) => {
            *instruction = [0; 5];
            *count = 0;
            no.number()
        }
    }
}

// Reads the instruction that begins at the first word.
pub fn day_read(words: &[u32], instruction: &mut [u32; 5], count: &mut usize) -> u32
    ensures { ReadIs (read_answer (read_of words.now)) result instruction.new count.new }
{
    read_out(tape::read(words), instruction, count)
}

// The quotes in the words after a roll's head, sixteen prices and then sixteen accrued amounts, 0 where a word is missing.
pub fn day_quotes(words: &[u32], quotes: &mut [u32; QUOTE_COUNT])
    ensures { quotes.new ≡ sets (replicate 32 0) 0 (quotes_of words.now) }
{
    *quotes = [0; QUOTE_COUNT];
    tape::quotes(words, quotes);
}

// Writes the instruction of a kind and four numbers, with the quotes of a roll.
#[tactic(auto, unfolding(crate::specs::Words::day_written, rules::specs::Tape::write_of))]
fn write(
    kind: u32,
    a: u32,
    b: u32,
    c: u32,
    d: u32,
    quotes: &[u32],
    out: &mut [u32],
) -> Result<usize, Refusal>
    ensures { written result out.new ≡ day_written kind (instruction_of kind a b c d) quotes.now out.old }
{
    if out.len() < TAPE_WORDS {
        return Err(Refusal::Output);
    }
    match instruction_at(kind, a, b, c, d) {
        Some(x) => tape::write(x, quotes, out),
        None => Err(Refusal::Field),
    }
}

// Writes an instruction, with the quotes of a roll.
pub fn day_write(
    kind: u32,
    a: u32,
    b: u32,
    c: u32,
    d: u32,
    quotes: &[u32],
    out: &mut [u32],
    count: &mut usize,
) -> u32
    ensures { plainly_written result count.new out.new ≡ day_written kind (instruction_of kind a b c d) quotes.now out.old }
{
    plain(write(kind, a, b, c, d, quotes, out), 0, count)
}
