// Runs a tape of little-endian words from standard input. Prints a line for each instruction: the index of
// its first word, its name, the refusal number (0 if done), the count of records (for pair-off, steps);
// then `F` issue from to lots day for each ledger entry, and `C` account yen for each charge not 0. Where
// the tape cannot be read to its end, or a write fails, a message says so and nothing more is written.
#![tactic(auto)]

ghost use Rattle.std.specs.Prelude.{◌≡◌, true, false, ◌+◌, length};
ghost use Rattle.rules.specs.Text.{closing_text};
ghost use Rattle.playing.specs.Playing.{most_reads, Buffers, Played};
ghost use Rattle.dayrun.specs.Day.{Closed, Whole};

use playing::{End, Sent, play, show};
use rules::OUTPUT_WORDS;
use std::io::Read;
use waiting::Kept;

// so many bytes are read at once, their words, and the bytes of their lines
const READ_BYTES: usize = 16384;

const READ_WORDS: usize = 4096;

const TEXT_BYTES: usize = 327680;

// Writes the lines of the ledger and the charges of the book in which a run ended.
fn finish<P: Print + Eprint>(rt: &P, text: &mut [u8], e: End) -> Sent
    requires { (length text.old ≡ 327680) × Played e × (e.over ≡ true) × (e.sent.written ≡ true) }
    ensures { result.count ≡ e.sent.count + length (closing_text e.book) }
{
    let book = e.book;
    let length = report::closing(text, book);
    let sent = e.sent;
    show(rt, sent, &text[..length])
}

// Says that the tape could not be read to its end: a read failed, or all reads were made.
fn say_unread<E: Eprint>(rt: &E, over: bool, failed: bool, reads: u64)
    requires { (over ≡ false) × (failed ≡ false → reads ≡ most_reads) }
{
    let _ = rt.eprintln("dayrun: the tape could not be read to its end");
}

// Behind a run: the lines of the ledger and the charges, if it was over and all its lines are written.
fn close<P: Print + Eprint>(rt: &P, text: &mut [u8], e: End) -> Sent
    requires { (length text.old ≡ 327680) × Played e }
    ensures { Closed e result }
{
    let sent = e.sent;
    let none = Sent {
        written: false,
        count: sent.count,
    };
    if !sent.written {
        return none;
    }
    if !e.over {
        say_unread(rt, e.over, e.failed, e.reads);
        return none;
    }
    finish(rt, text, e)
}

// A day: how its run ended, and what was written behind the run's lines.
#[derive(Clone, Copy, Drop)]
struct Outcome {
    run: End,
    closing: Sent,
}

// Runs the tape, then writes the lines of the ledger and the charges.
fn day<P: Print + Eprint, R: Read>(
    rt: &P,
    reader: &mut R,
    bytes: &mut [u8],
    words: &mut [u32],
    text: &mut [u8],
    out: &mut [u32],
    kept: &mut [Kept],
) -> Outcome
    requires { Buffers bytes.old words.old text.old out.old kept.old }
    ensures { Whole result }
{
    let run = play(rt, reader, bytes, words, text, out, kept);
    let closing = close(rt, text, run);
    Outcome { run, closing }
}

fn main(rt: HostRuntime) {
    let mut reader = rt.reader();
    let mut bytes = [0u8; READ_BYTES];
    let mut words = [0u32; READ_WORDS];
    let mut text = [0u8; TEXT_BYTES];
    let mut out = [0u32; OUTPUT_WORDS];
    let mut kept = delivery::none_kept();
    day(
        &rt,
        &mut reader,
        &mut bytes,
        &mut words,
        &mut text,
        &mut out,
        &mut kept,
    );
}
