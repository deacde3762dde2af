// A run in parts: the words that one read gives, as far as they hold whole instructions, run on a book.
#![tactic(auto)]

ghost use Rattle.parts.specs.Parting.{Room, Parted};

use input::Words;
use rules::Book;
use turns::run_on;
use waiting::Kept;

// Where a run stands between two parts: the bytes from `start` to `end` are not used yet, the next word
// has this index; how much of the text is printed, whether the run is over, whether the last read
// failed, and the book. `over` and `failed` stay two flags: a reader's refusal ends a run whatever the last
// read said.
#[derive(Clone, Copy, Drop)]
pub struct Place {
    pub start: usize,
    pub end: usize,
    pub index: u64,
    pub printed: usize,
    pub over: bool,
    pub failed: bool,
    pub book: Book,
}

// One part of a run: the words of the bytes in the buffer, as far as they hold whole instructions; at the
// end of the tape, all of them.
pub fn part(
    p: Place,
    w: Words,
    words: &[u32],
    text: &mut [u8],
    out: &mut [u32],
    kept: &mut [Kept],
) -> Place
    requires { Room p words.now text.old out.old kept.old }
    ensures { Parted p w words.now text.new result }
{
    let stray = w.end % 4 != 0;
    let last = w.input.ended();
    let r = run_on(p.book, words, last, stray, p.index, text, out, kept);
    let after = r.after;
    Place {
        start: 4 * r.used,
        end: w.end,
        index: p.index + r.used as u64,
        printed: r.end,
        over: r.over,
        failed: w.input.failed(),
        book: after,
    }
}
