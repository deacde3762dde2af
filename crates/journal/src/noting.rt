// A record written to a lent output. An open function answers as the C interface has it, a number and a count that it writes
// at a reference.
ghost use Rattle.std.specs.Prelude.{◌≡◌, ◌∷◌, ◌-◌, ◌≤◌, length, take, drop, replicate};
ghost use Rattle.std.proofs.lemmas.List.Edits.{sets};
ghost use Rattle.rules.specs.Records.{over};
ghost use Rattle.desk.specs.Fields.{instruction_of};
ghost use Rattle.journals.specs.Record.{record_words, summed_words, commit_word, ticket_words, ticket_in, padded, closed};
ghost use Rattle.journal.specs.Written.{number_of, number_in, call_noted, commit_noted, NotedIs, Begun};

use desk::fields::instruction_at;

// Why no record is written.
#[derive(Clone, Copy, PartialEq, Eq, Drop)]
pub enum Unnoted {
    // the output has fewer than 36 words
    Short,
    // the kind is none of an instruction's, or a number does not fit
    Unfit,
}

impl Unnoted {
    // its number for a host
    fn number(self) -> u32
        ensures { result ≡ number_of self }
    {
        match self {
            Unnoted::Short => 1,
            Unnoted::Unfit => 4,
        }
    }
}

// The number of an answer, 0 where it is done: the C interface has a number here. `rules::number_in` is that of a `Refusal`;
// one function of both would ask for a trait of the two enums, and is no plainer.
fn number_in(answer: Result<(), Unnoted>) -> u32
    ensures { result ≡ number_in answer }
{
    match answer {
        Ok(_) => 0,
        Err(no) => no.number(),
    }
}

// Zeros from a place of a record on, up to its checksum.
#[tactic(auto, using(crate::proofs::Laid::zero_more, crate::proofs::Laid::zeros_end))]
fn clear(out: &mut [u32], from: usize)
    requires { record_words ≤ length out.old }
    ensures { out.new ≡ sets out.old from (replicate (summed_words - from) 0) }
{
    for at in from..34 {
        out[at] = 0;
    }
}

// A record of the `count` words of a call that stand behind the place of its number: zeros behind them, the number, the
// checksum. The record is lent whole, since all its words are written.
fn finish(number: u32, count: usize, out: &mut [u32])
    requires { Begun count out.old }
    ensures { out.new ≡ over (closed (number ∷ padded (take count (drop 1 out.old)))) out.old }
{
    clear(out, count + 1);
    out[0] = number;
    let sum = checksums::checksum(&out[..34]);
    out[34] = (sum % 4294967296) as u32;
    out[35] = (sum / 4294967296) as u32;
}

// The words of a commit behind the place of the number: a word of kind 15, then the ticket's six numbers, stored place by
// place, as a host in C lays them out.
fn put_commit(ticket: &[u32; 6], out: &mut [u32])
    requires { record_words ≤ length out.old }
    ensures { out.new ≡ sets out.old 1 (commit_word ∷ ticket_words (ticket_in ticket.now)) }
{
    out[1] = 4026531840;
    out[2] = ticket[0];
    out[3] = ticket[1];
    out[4] = ticket[2];
    out[5] = ticket[3];
    out[6] = ticket[4];
    out[7] = ticket[5];
}

// The record of an instruction.
fn note_call(
    number: u32,
    kind: u32,
    a: u32,
    b: u32,
    c: u32,
    d: u32,
    quotes: &[u32],
    out: &mut [u32],
) -> Result<(), Unnoted>
    ensures { NotedIs (call_noted number kind (instruction_of kind a b c d) quotes.now out.old) (number_in result) out.new }
{
    if out.len() < 36 {
        return Err(Unnoted::Short);
    }
    let Some(x) = instruction_at(kind, a, b, c, d) else {
        return Err(Unnoted::Unfit);
    };
    let Ok(count) = tape::write(x, quotes, &mut out[1..]) else {
        return Err(Unnoted::Unfit);
    };
    finish(number, count, out);
    Ok(())
}

// The record of a ticket's commit.
fn note_commit(number: u32, ticket: &[u32; 6], out: &mut [u32]) -> Result<(), Unnoted>
    ensures { NotedIs (commit_noted number ticket.now out.old) (number_in result) out.new }
{
    if out.len() < 36 {
        return Err(Unnoted::Short);
    }
    put_commit(ticket, out);
    finish(number, 7, out);
    Ok(())
}

// The record of an instruction, and the number of what is answered.
pub fn day_journal_call(
    number: u32,
    kind: u32,
    a: u32,
    b: u32,
    c: u32,
    d: u32,
    quotes: &[u32],
    out: &mut [u32],
) -> u32
    ensures { NotedIs (call_noted number kind (instruction_of kind a b c d) quotes.now out.old) result out.new }
{
    number_in(note_call(number, kind, a, b, c, d, quotes, out))
}

// The record of a ticket's commit, and the number of what is answered.
pub fn day_journal_commit(number: u32, ticket: &[u32; 6], out: &mut [u32]) -> u32
    ensures { NotedIs (commit_noted number ticket.now out.old) result out.new }
{
    number_in(note_commit(number, ticket, out))
}
