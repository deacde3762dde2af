// The text of a run's lines: bytes put behind the first `at` of a lent buffer. Each function answers
// where its last byte ends.
ghost use Rattle.std.specs.Prelude.{◌≡◌, ◌++◌, ◌+◌, ◌-◌, ◌^◌, ◌≤◌, ◌<◌, length, take};
ghost use Rattle.rules.specs.Ledger.{entry as entry_of};
ghost use Rattle.rules.specs.Run.{line as line_of};
ghost use Rattle.rules.specs.Text.{decimal, signed as signedText, name_text, field as fieldText, line_text, fail_text, charge_text, yen_of};
ghost use Rattle.report.specs.Digits.{last_digits, IsDigitCount};
ghost use Rattle.report.specs.Added.{Added};
ghost use Rattle.report.specs.Lines.{rest_text, plain_text};

use rules::Name;

// The bytes of a part.
fn put(text: &mut [u8], at: usize, part: &[u8]) -> usize
    requires { at + length part.now ≤ length text.old }
    ensures { Added (length part.now) text.old text.new at result part.now }
{
    let end = at + part.len();
    text[at..end].copy_from_slice(part);
    end
}

// How many decimal digits a number below 100,000,000 has.
fn short_width(n: u64) -> usize
    requires { n < 100000000 }
    ensures { IsDigitCount 10 1 n result }
{
    if n < 10_000 {
        if n < 100 {
            if n < 10 {
                return 1;
            }
            return 2;
        }
        if n < 1_000 {
            return 3;
        }
        return 4;
    }
    if n < 1_000_000 {
        if n < 100_000 {
            return 5;
        }
        return 6;
    }
    if n < 10_000_000 {
        return 7;
    }
    8
}

// How many decimal digits a number has, by comparisons, which are faster than a division for each digit.
fn width(n: u64) -> usize
    ensures { IsDigitCount 10 1 n result }
{
    if n < 100_000_000 {
        return short_width(n);
    }
    if n < 10_000_000_000_000_000 {
        return 8 + short_width(n / 100_000_000);
    }
    16 + short_width(n / 10_000_000_000_000_000)
}

// The digits of a number from `at` to `end`, the last first, two at a time, and one by itself at the front where they are
// an odd number: no `for` goes two places down.
fn spell(text: &mut [u8], at: usize, end: usize, n: u64)
    requires { (at ≤ end) × (end ≤ length text.old) × (n < 10 ^ (end - at)) }
    ensures { take end text.new ≡ take at text.old ++ last_digits 10 (end - at) n }
{
    let mut k = end;
    let mut rest = n;
    while at + 1 < k {
        let two = rest % 100;
        k -= 2;
        text[k + 1] = 48 + (two % 10) as u8;
        text[k] = 48 + (two / 10) as u8;
        rest /= 100;
    }
    if at < k {
        text[at] = 48 + rest as u8;
    }
}

// A number's decimal digits.
fn number(text: &mut [u8], at: usize, n: u64) -> usize
    requires { at + 20 ≤ length text.old }
    ensures { Added 20 text.old text.new at result (decimal n) }
{
    let end = at + width(n);
    spell(text, at, end, n);
    end
}

// A signed number, with a minus in front if it is negative.
fn signed(text: &mut [u8], at: usize, z: i64) -> usize
    requires { at + 21 ≤ length text.old }
    ensures { Added 21 text.old text.new at result (signedText z) }
{
    let n = z.unsigned_abs();
    if z < 0 {
        let to = put(text, at, b"-");
        return number(text, to, n);
    }
    number(text, at, n)
}

// A space and a number.
fn field(text: &mut [u8], at: usize, n: u64) -> usize
    requires { at + 21 ≤ length text.old }
    ensures { Added 21 text.old text.new at result (fieldText n) }
{
    let to = put(text, at, b" ");
    number(text, to, n)
}

// The name of a line.
fn name(text: &mut [u8], at: usize, n: Name) -> usize
    requires { at + 8 ≤ length text.old }
    ensures { Added 8 text.old text.new at result (name_text n) }
{
    match n {
        Name::Trade => put(text, at, b"trade"),
        Name::Deliver => put(text, at, b"deliver"),
        Name::Resolve => put(text, at, b"resolve"),
        Name::PairOff => put(text, at, b"pair-off"),
        Name::Close => put(text, at, b"close"),
        Name::Cutoff => put(text, at, b"cutoff"),
        Name::Roll => put(text, at, b"roll"),
        Name::Mark => put(text, at, b"mark"),
        Name::Turn => put(text, at, b"turn"),
        Name::Tape => put(text, at, b"tape"),
    }
}

// What follows a line's index where its refusal number and its count are 0: the usual line, in one copy, for speed.
fn plain(text: &mut [u8], at: usize, n: Name) -> usize
    requires { at + 14 ≤ length text.old }
    ensures { Added 14 text.old text.new at result (plain_text n) }
{
    match n {
        Name::Trade => put(text, at, b" trade 0 0\n"),
        Name::Deliver => put(text, at, b" deliver 0 0\n"),
        Name::Resolve => put(text, at, b" resolve 0 0\n"),
        Name::PairOff => put(text, at, b" pair-off 0 0\n"),
        Name::Close => put(text, at, b" close 0 0\n"),
        Name::Cutoff => put(text, at, b" cutoff 0 0\n"),
        Name::Roll => put(text, at, b" roll 0 0\n"),
        Name::Mark => put(text, at, b" mark 0 0\n"),
        Name::Turn => put(text, at, b" turn 0 0\n"),
        Name::Tape => put(text, at, b" tape 0 0\n"),
    }
}

// What follows a line's index: name, refusal number, count.
fn rest(text: &mut [u8], at: usize, n: Name, refusal: u32, count: usize) -> usize
    requires { at + 52 ≤ length text.old }
    ensures { Added 52 text.old text.new at result (rest_text n refusal count) }
{
    let a = put(text, at, b" ");
    let b = name(text, a, n);
    let c = field(text, b, refusal as u64);
    let d = field(text, c, count as u64);
    put(text, d, b"\n")
}

// The line of an instruction: index, name, refusal number, count. In place at each call, for speed.
#[inline(always)]
pub fn line(text: &mut [u8], at: usize, index: u64, n: Name, refusal: u32, count: usize) -> usize
    requires { at + 72 ≤ length text.old }
    ensures { Added 72 text.old text.new at result (line_text (line_of index n refusal count)) }
{
    let to = number(text, at, index);
    if refusal != 0 {
        return rest(text, to, n, refusal, count);
    }
    if count != 0 {
        return rest(text, to, n, refusal, count);
    }
    plain(text, to, n)
}

// The line of a ledger entry: issue, from, to, lots, day.
pub fn fail(text: &mut [u8], at: usize, i: u8, f: u8, t: u8, x: u32, d: u16) -> usize
    requires { at + 107 ≤ length text.old }
    ensures { Added 107 text.old text.new at result (fail_text (entry_of i f t x d)) }
{
    let a = put(text, at, b"F");
    let b = field(text, a, i as u64);
    let c = field(text, b, f as u64);
    let e = field(text, c, t as u64);
    let g = field(text, e, x as u64);
    let h = field(text, g, d as u64);
    put(text, h, b"\n")
}

// The line of an account's charge.
pub fn charge(text: &mut [u8], at: usize, account: usize, yen: i64) -> usize
    requires { at + 45 ≤ length text.old }
    ensures { Added 45 text.old text.new at result (charge_text (yen_of account yen)) }
{
    let a = put(text, at, b"C");
    let b = field(text, a, account as u64);
    let c = put(text, b, b" ");
    let d = signed(text, c, yen);
    put(text, d, b"\n")
}
