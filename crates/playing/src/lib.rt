// Runs a tape of little-endian words from standard input, part by part, and writes a line for each instruction.
#![tactic(auto)]

ghost use Rattle.std.specs.Prelude.{◌≡◌, true, false, ◌+◌, ◌<◌, ◌^◌, length};
ghost use Rattle.playing.specs.Playing.{Buffers, Standing, Stepped, Shown, Played};

use parts::Place;
use rules::Book;
use std::io::Read;
use waiting::Kept;

// The most reads of a run: the loop has to end, and the bytes printed are counted in 64 bits.
const MOST_READS: u64 = 35_184_372_088_831;

// One part of a run: the words that one read adds to those not used yet.
fn step<R: Read>(
    reader: &mut R,
    p: Place,
    bytes: &mut [u8],
    words: &mut [u32],
    text: &mut [u8],
    out: &mut [u32],
    kept: &mut [Kept],
) -> Place
    requires { Buffers bytes.old words.old text.old out.old kept.old × Standing p × (p.over ≡ false) × (p.failed ≡ false) × (p.index + 4096 < 2 ^ 64) }
    ensures { Stepped p bytes.old bytes.new text.new result × Standing result × Buffers bytes.new words.new text.new out.new kept.new }
{
    let start = p.start;
    let w = input::next(reader, bytes, words, start, p.end);
    let n = w.count;
    parts::part(p, w, &words[..n], text, out, kept)
}

// After a write: how many bytes were handed over since the start, and whether this write took its own. The
// count stands either way, so `written` stays a flag.
#[derive(Clone, Copy, Drop)]
pub struct Sent {
    pub written: bool,
    pub count: u64,
}

// Says that lines could not be written.
fn say_unwritten<E: Eprint>(rt: &E, written: bool)
    requires { written ≡ false }
{
    let _ = rt.eprintln("dayrun: the lines could not be written");
}

// What a write answered: its bytes are handed over, and it took them or not.
fn taken<E: Eprint>(rt: &E, written: bool, sent: u64, text: &[u8]) -> Sent
    requires { sent + length text.now < 2 ^ 64 }
    ensures { (result.written ≡ written) × (result.count ≡ sent + length text.now) }
{
    if !written {
        say_unwritten(rt, written);
    }
    let count = sent + text.len() as u64;
    Sent { written, count }
}

// Writes bytes that stand at this place of what is to be printed, where all before them were written.
// That `taken` is given what the write answered stands in no contract: what went to standard output has no
// name in one.
pub fn show<P: Print + Eprint>(rt: &P, s: Sent, text: &[u8]) -> Sent
    requires { (s.written ≡ true) × Shown s.count text.now × (s.count + length text.now < 2 ^ 64) }
    ensures { result.count ≡ s.count + length text.now }
{
    taken(rt, rt.write_all(text).is_ok(), s.count, text)
}

// How a run ended: whether it was over, whether its last read failed, how many reads it made, what was
// written of its lines, and the book. `over` and `failed` are those of the last part (`parts::Place`), two flags as there:
// where the reader refused, a run is over whatever the last read said, so both can hold.
#[derive(Clone, Copy, Drop)]
pub struct End {
    pub over: bool,
    pub failed: bool,
    pub reads: u64,
    pub sent: Sent,
    pub book: Book,
}

// Runs the tape to its end, part by part, and writes its lines. A read or a write that fails ends the run: what a part or
// a write said ends the loop, and no range says that.
pub fn play<P: Print + Eprint, R: Read>(
    rt: &P,
    reader: &mut R,
    bytes: &mut [u8],
    words: &mut [u32],
    text: &mut [u8],
    out: &mut [u32],
    kept: &mut [Kept],
) -> End
    requires { Buffers bytes.old words.old text.old out.old kept.old }
    ensures { Played result × Buffers bytes.new words.new text.new out.new kept.new }
{
    let book = book::fresh();
    let mut p = Place {
        start: 0,
        end: 0,
        index: 0,
        printed: 0,
        over: false,
        failed: false,
        book,
    };
    let mut sent = Sent {
        written: true,
        count: 0,
    };
    let mut reads: u64 = 0;
    while sent.written & !p.over & !p.failed & (reads < MOST_READS) {
        reads += 1;
        p = step(reader, p, bytes, words, text, out, kept);
        let length = p.printed;
        sent = show(rt, sent, &text[..length]);
    }
    let last = p.book;
    End {
        over: p.over,
        failed: p.failed,
        reads,
        sent,
        book: last,
    }
}
