// The journal of calls for hosts in C and Rust: a record of each call, written and read. Each call is that of the library
// `journal`, with the same contract.
//
// uint32_t day_journal_call(uint32_t number, uint32_t kind, uint32_t a, uint32_t b, uint32_t c, uint32_t d,
//     const uint32_t *quotes, size_t, uint32_t *out, size_t);
// uint32_t day_journal_commit(uint32_t number, const uint32_t ticket[6], uint32_t *out, size_t);
//   Writes the record of an instruction (its kind and numbers are in `desk`), or of a ticket's commit. 0 where it is done, 1
//   where the output has fewer than 36 words, 4 where a kind is none or a number does not fit. A refusal changes nothing;
//   words behind the record keep their content.
//
// struct day_journalled day_journal_read(uint32_t number, const uint32_t *words, size_t);
//   struct day_journalled { uint32_t reason; uint32_t kind; uint32_t numbers[6]; };
//   The record with this number at the front of the rest of a journal. Its reason is 0 where it is read, with the kind (15 a
//   commit) and numbers; else 1 where no word is left, 2 torn: it is not whole or wrong, and nothing stands behind it, 3
//   damaged: it is wrong, and something stands behind it; with 0 for every number. The quotes of a roll are those that
//   day_quotes gives of the words from the record's second on.
#![tactic(auto)]

ghost use Rattle.std.specs.Prelude.{◌≡◌};
ghost use Rattle.desk.specs.Fields.{instruction_of};
ghost use Rattle.journals.specs.Journal.{read_next};
ghost use Rattle.journal.specs.Written.{call_noted, NotedIs, commit_noted};
ghost use Rattle.journal.specs.Told.{journalled};

use journal::{Journalled, noting, reading};

// The record of an instruction.
#[unsafe(no_mangle)]
pub extern "C" fn day_journal_call(
    number: u32,
    kind: u32,
    a: u32,
    b: u32,
    c: u32,
    d: u32,
    quotes: &[u32],
    out: &mut [u32],
) -> u32
    ensures { NotedIs (call_noted number kind (instruction_of kind a b c d) quotes.now out.old) result out.new }
{
    noting::day_journal_call(number, kind, a, b, c, d, quotes, out)
}

// The record of a ticket's commit.
#[unsafe(no_mangle)]
pub extern "C" fn day_journal_commit(number: u32, ticket: &[u32; 6], out: &mut [u32]) -> u32
    ensures { NotedIs (commit_noted number ticket.now out.old) result out.new }
{
    noting::day_journal_commit(number, ticket, out)
}

// The record with this number, at the front of the rest of a journal.
#[unsafe(no_mangle)]
pub extern "C" fn day_journal_read(number: u32, words: &[u32]) -> Journalled
    ensures { result ≡ journalled (read_next number words.now) }
{
    reading::day_journal_read(number, words)
}
