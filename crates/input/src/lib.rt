// The tape's words out of the bytes of standard input, through a lent buffer. A read of 0 bytes is the end
// of the tape, and nothing else is.
#![tactic(auto)]

ghost use Rattle.std.specs.Prelude.{◌≡◌, ◌++◌, ◌+◌, ◌-◌, ◌*◌, ◌≤◌, ◌<◌, ◌^◌, length, get_or, take, drop};
ghost use Rattle.rules.specs.Bytes.{word_of};
ghost use Rattle.input.specs.Fed.{is_ended, is_failed, brought, Decoded, Few, Shifted, Took, Received, Refilled, Fed};

use std::io::Read;

// What a read says of the tape: more bytes came; it has ended; or it could not be read.
#[derive(Clone, Copy, PartialEq, Eq, Drop)]
pub enum Input {
    More,
    Ended,
    Failed,
}

impl Input {
    // Has the tape ended?
    pub fn ended(self) -> bool
        ensures { result ≡ is_ended self }
    {
        matches!(self, Input::Ended)
    }

    // Could it not be read?
    pub fn failed(self) -> bool
        ensures { result ≡ is_failed self }
    {
        matches!(self, Input::Failed)
    }
}

// Where the bytes in the buffer end, and what the read said.
#[derive(Clone, Copy, Drop)]
pub struct Fill {
    pub end: usize,
    pub input: Input,
}

// The word of four bytes, the least first.
fn word(bytes: &[u8], at: usize) -> u32
    requires { at + 4 ≤ length bytes.now }
    ensures { result ≡ word_of (get_or bytes.now at 0) (get_or bytes.now (at + 1) 0) (get_or bytes.now (at + 2) 0) (get_or bytes.now (at + 3) 0) }
{
    u32::from_le_bytes([bytes[at], bytes[at + 1], bytes[at + 2], bytes[at + 3]])
}

// The whole words of some bytes; answers how many there are.
fn decode(bytes: &[u8], words: &mut [u32]) -> usize
    requires { length bytes.now ≤ 4 * length words.old }
    ensures { Decoded bytes.now words.new result }
{
    let n = bytes.len() / 4;
    for k in 0..n {
        words[k] = word(bytes, 4 * k);
    }
    n
}

// The bytes from `start` to `end` go to the front; answers how many they are.
fn shift(buffer: &mut [u8], start: usize, end: usize) -> usize
    requires { Few start end buffer.old }
    ensures { Shifted buffer.old buffer.new start result × (result ≡ end - start) }
{
    buffer.copy_within(start..end, 0);
    end - start
}

// What one read brought behind the bytes left: so many bytes, or none where it failed. There is room for a
// byte, so 0 bytes are the end of the tape.
fn took(got: Option<usize>, left: usize) -> Fill
    requires { left + brought got < 2 ^ 64 }
    ensures { Took got left result }
{
    match got {
        Some(0) => Fill {
            end: left,
            input: Input::Ended,
        },
        Some(n) => Fill {
            end: left + n,
            input: Input::More,
        },
        None => Fill {
            end: left,
            input: Input::Failed,
        },
    }
}

// How many bytes one read brings, none where it fails.
fn read_once<R: Read>(reader: &mut R, room: &mut [u8]) -> Option<usize>
    ensures { brought result ≤ length room.old }
{
    reader.read(room).ok()
}

// One read fills the room behind the bytes left. That `took` is given what the read answered stands in no
// contract: what came of standard input has no name in one.
fn receive<R: Read>(reader: &mut R, room: &mut [u8], left: usize) -> Fill
    requires { (0 < length room.old) × (left + length room.old < 2 ^ 64) }
    ensures { Received left (length room.old) result }
{
    took(read_once(reader, room), left)
}

// The bytes not yet used go to the front, and one read fills up behind them.
fn refill<R: Read>(reader: &mut R, buffer: &mut [u8], start: usize, end: usize) -> Fill
    requires { Few start end buffer.old }
    ensures { Refilled buffer.old buffer.new start (end - start) result }
{
    let left = shift(buffer, start, end);
    receive(reader, &mut buffer[left..], left)
}

// The words in the buffer: how many, where their bytes end, and what the read said.
#[derive(Clone, Copy, Drop)]
pub struct Words {
    pub count: usize,
    pub end: usize,
    pub input: Input,
}

// The words of the bytes not yet used and of those that one more read gives.
pub fn next<R: Read>(
    reader: &mut R,
    buffer: &mut [u8],
    words: &mut [u32],
    start: usize,
    end: usize,
) -> Words
    requires { Few start end buffer.old × (length buffer.old ≤ 4 * length words.old) }
    ensures { Fed buffer.old buffer.new words.new start end result }
{
    let f = refill(reader, buffer, start, end);
    let filled = f.end;
    let count = decode(&buffer[..filled], words);
    Words {
        count,
        end: filled,
        input: f.input,
    }
}
