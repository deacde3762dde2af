// Is a list each report number just once? Numbers are marked as they come, 65,536 at a time.
#![tactic(auto)]

ghost use Rattle.std.specs.Prelude.{◌≡◌, ◌+◌, ◌^◌, ◌<◌, ltb, eqb, length};
ghost use Rattle.rules.specs.Book.{all};
ghost use Rattle.reports.specs.Trust.{draw_right};
ghost use Rattle.drawing.specs.Marks.{bit_of, Unmarked, Marked, NoneTwice};

// the bits of a word, and the words of a window
const WORD_BITS: usize = 64;

const WINDOW_WORDS: usize = 1024;

// Is each number of the column below the limit? With no early end, so that many are compared at once.
pub fn below(column: &[u32], limit: usize) -> bool
    ensures { result ≡ all (λ x. ltb x limit) column.now }
{
    let mut good = true;
    for x in column {
        good &= (*x as usize) < limit;
    }
    good
}

// Is bit b of the word set?
fn is_set(word: u64, b: usize) -> bool
    requires { b < 64 }
    ensures { result ≡ eqb (bit_of word b) 1 }
{
    (word >> b) % 2 == 1
}

// The word with bit b set, which is not.
fn with_bit(word: u64, b: usize) -> u64
    requires { (b < 64) × (bit_of word b ≡ 0) }
    ensures { result ≡ word + 2 ^ b }
{
    word + (1u64 << b)
}

// Marks the number j in the window that starts at w, 64 numbers a word. Has it no mark yet, or another window?
fn mark(w: usize, j: usize, marks: &mut [u64]) -> bool
    ensures { Marked w j marks.old marks.new result }
{
    if j < w {
        return true;
    }
    let d = j - w;
    let at = d / WORD_BITS;
    if marks.len() <= at {
        return true;
    }
    let word = marks[at];
    let b = d % WORD_BITS;
    if is_set(word, b) {
        return false;
    }
    marks[at] = with_bit(word, b);
    true
}

// Is no number of the window that starts at w in the list twice?
fn none_twice(w: usize, draw: &[u32], marks: &mut [u64]) -> bool
    requires { Unmarked marks.old }
    ensures { NoneTwice w (length marks.old) draw.now result }
{
    for j in draw {
        if !mark(w, *j as usize, marks) {
            return false;
        }
    }
    true
}

// The same of a window of 65,536 numbers: 1,024 words, a bit for each number.
fn window_right(w: usize, draw: &[u32]) -> bool
    ensures { NoneTwice w 1024 draw.now result }
{
    let mut marks = [0u64; WINDOW_WORDS];
    none_twice(w, draw, &mut marks)
}

// Is the list each of n report numbers just once? It is looked through once for each 65,536 of them.
pub fn draw_right(n: usize, draw: &[u32]) -> bool
    ensures { result ≡ draw_right n draw.now }
{
    if draw.len() != n {
        return false;
    }
    if !below(draw, n) {
        return false;
    }
    let windows = n / 65_536 + 1;
    for k in 0..windows {
        if !window_right(k * 65_536, draw) {
            return false;
        }
    }
    true
}
