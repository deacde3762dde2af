// A record at the front of the rest of a journal.
ghost use Rattle.std.specs.Prelude.{◌≡◌, ◌&&◌, ◌≤◌, eqb, length, get_or, drop};
ghost use Rattle.rules.specs.Measures.{tape_words};
ghost use Rattle.rules.specs.Book.{all, is_zero};
ghost use Rattle.rules.specs.Tape.{read_of};
ghost use Rattle.journals.specs.Record.{record_words, summed_words, checks, ticket_told, instruction_told, call_in, read_record};
ghost use Rattle.journals.specs.Journal.{unread, read_next};
ghost use Rattle.journal.specs.Told.{instruction_as, told_in, as_next, journalled};

use crate::Journalled;
use desk::fields::fields;
use rules::Instruction;

// Why no call is read.
#[derive(Clone, Copy, PartialEq, Eq, Drop)]
pub enum Unread {
    // no word is left
    Ended,
    // a record is not whole or wrong, and nothing stands behind it
    Torn,
    // a record is wrong, and something stands behind it
    Damaged,
}

impl Unread {
    // Why none is, by how many words are left.
    fn of(left: usize) -> Unread
        ensures { as_next result ≡ unread left }
    {
        if left == 0 {
            return Unread::Ended;
        }
        if left <= 36 {
            return Unread::Torn;
        }
        Unread::Damaged
    }

    // No call, for this reason.
    fn told(self) -> Journalled
        ensures { result ≡ journalled (as_next self) }
    {
        let reason = match self {
            Unread::Ended => 1,
            Unread::Torn => 2,
            Unread::Damaged => 3,
        };
        Journalled {
            reason,
            kind: 0,
            numbers: [0; 6],
        }
    }
}

// Has the record its number and its checksum?
fn is_sealed(number: u32, words: &[u32]) -> bool
    requires { record_words ≤ length words.now }
    ensures { result ≡ eqb (get_or words.now 0 0) number && checks summed_words words.now }
{
    let sum = checksums::checksum(&words[..34]);
    let told = words[34] as u64 + 4294967296 * (words[35] as u64);
    (words[0] == number) & (sum == told)
}

// Is each word from a place on 0?
fn blank(words: &[u32], from: usize) -> bool
    ensures { result ≡ all is_zero (drop from words.now) }
{
    for at in from..words.len() {
        if words[at] != 0 {
            return false;
        }
    }
    true
}

// An instruction in plain numbers.
fn instruction_as(x: Instruction) -> Journalled
    ensures { result ≡ instruction_as x }
{
    let f = fields(x);
    Journalled {
        reason: 0,
        kind: f[0],
        numbers: [f[1], f[2], f[3], f[4], 0, 0],
    }
}

// The instruction of a record's words, with nothing but zeros behind it.
fn instruction_in(words: &[u32]) -> Option<Journalled>
    ensures { result ≡ told_in (instruction_told (read_of words.now) words.now) }
{
    match tape::read(words) {
        Ok((x, n)) => {
            if !blank(words, n) {
                return None;
            }
            Some(instruction_as(x))
        }
        Err(_) => None,
    }
}

// The commit of a record's words, with nothing but zeros behind it.
fn commit_in(words: &[u32]) -> Option<Journalled>
    requires { length words.now ≡ tape_words }
    ensures { result ≡ told_in (ticket_told words.now) }
{
    if !blank(words, 7) {
        return None;
    }
    Some(Journalled {
        reason: 0,
        kind: 15,
        numbers: [words[1], words[2], words[3], words[4], words[5], words[6]],
    })
}

// The call of a record's words.
#[tactic(auto, unfolding(journals::specs::Record::call_in))]
fn call_in(words: &[u32]) -> Option<Journalled>
    requires { length words.now ≡ tape_words }
    ensures { result ≡ told_in (call_in words.now) }
{
    if words[0] == 4026531840 {
        return commit_in(words);
    }
    instruction_in(words)
}

// The call of the record with this number, at the front of the rest of a journal.
#[tactic(auto, unfolding(journals::specs::Record::read_record))]
fn record_in(number: u32, words: &[u32]) -> Option<Journalled>
    ensures { result ≡ told_in (read_record number words.now) }
{
    if words.len() < 36 {
        return None;
    }
    if !is_sealed(number, words) {
        return None;
    }
    call_in(&words[1..34])
}

// The record with this number, at the front of the rest of a journal.
#[tactic(auto, unfolding(journals::specs::Journal::read_next))]
pub fn day_journal_read(number: u32, words: &[u32]) -> Journalled
    ensures { result ≡ journalled (read_next number words.now) }
{
    match record_in(number, words) {
        Some(call) => call,
        None => Unread::of(words.len()).told(),
    }
}
