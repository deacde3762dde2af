// Where units stood before all lifts.
#![tactic(auto)]

ghost use Rattle.std.specs.Prelude.{◌≤◌};
ghost use Rattle.unlifting.specs.Unlifting.{BackIs, SpanIs, CanSpan};

// Places from `base` on, so many of them.
#[derive(Clone, Copy, Drop)]
pub struct Span {
    pub base: u32,
    pub len: u32,
}

// The places before a lift of units that stand side by side after it: those of the first of them.
fn before_lift(s: Span, old: u32, new: u32) -> Span
    requires { 1 ≤ s.len }
    ensures { BackIs s old new result }
{
    if s.base < new {
        let x = s.len.min(new - s.base);
        return Span {
            base: s.base,
            len: x,
        };
    }
    if s.base == new {
        return Span { base: old, len: 1 };
    }
    if s.base <= old {
        let x = s.len.min(old - s.base + 1);
        return Span {
            base: s.base - 1,
            len: x,
        };
    }
    s
}

// Where the unit at place k stood before all lifts, and how many behind it stood behind it there too.
pub fn before_lifts(words: &[u32], k: u32) -> Span
    requires { CanSpan words.now }
    ensures { SpanIs words.now k result }
{
    let mut s = Span { base: k, len: 6500 };
    for j in (0..words[0] as usize).rev() {
        s = before_lift(s, words[2 * j + 2], words[2 * j + 3]);
    }
    s
}
