// The words of each instruction at the front of an output.
#![tactic(auto)]

ghost use Rattle.std.specs.Prelude.{◌≡◌, map, ◌≤◌, ◌<◌, ◌^◌, length};
ghost use Rattle.std.proofs.lemmas.List.Edits.{sets};
ghost use Rattle.rules.specs.declared.Instruction.TheVariants.{Roll};
ghost use Rattle.rules.specs.Measures.{tape_words};
ghost use Rattle.rules.specs.Book.{all};
ghost use Rattle.rules.specs.Records.{quote_bits};
ghost use Rattle.rules.specs.Tape.{roll_word, mark_word, quote_word, fits, head_fits, fields_fit};
ghost use Rattle.writing.specs.Answers.{written, head_words, mark_words, turn_words, roll_words, Room, QuotesFit};

use rules::{QUOTE_COUNT, Refusal, TAPE_WORDS};

// Do the fields of a head and the lots after it fit their bits?
fn head_fits(issue: u32, from: u32, to: u32, lots: u32) -> bool
    ensures { result ≡ head_fits issue from to lots }
{
    (issue < 16) & (from < 64) & (to < 64) & (lots < 268435456)
}

// A head at the front of the output, with its kind 8 word where there are lots, or refusal 15.
pub fn put_head(
    kind: u32,
    issue: u32,
    from: u32,
    to: u32,
    lots: Option<u32>,
    out: &mut [u32],
) -> Result<usize, Refusal>
    requires { Room kind out.old }
    ensures { written result out.new ≡ head_words kind issue from to lots out.old }
{
    if !head_fits(issue, from, to, lots.unwrap_or(0)) {
        return Err(Refusal::Field);
    }
    out[0] = words::head(kind, issue, from, to);
    if let Some(x) = lots {
        out[1] = words::lots_word(x);
        return Ok(2);
    }
    Ok(1)
}

// The word of a mark: kind 13, issue in bits 27..24, mark in bit 0, the rest 0.
fn mark_word(issue: u32, mark: u32) -> u32
    requires { (issue < 2 ^ 4) × (mark < 2 ^ 1) }
    ensures { result ≡ mark_word issue mark }
{
    words::word(13, issue * 16777216 + mark)
}

// A mark's word at the front of the output, or refusal 15.
pub fn put_mark(issue: u32, mark: u32, out: &mut [u32]) -> Result<usize, Refusal>
    requires { tape_words ≤ length out.old }
    ensures { written result out.new ≡ mark_words issue mark out.old }
{
    if !((issue < 16) & (mark < 2)) {
        return Err(Refusal::Field);
    }
    out[0] = mark_word(issue, mark);
    Ok(1)
}

// A turn's word at the front of the output, kind 14 with the day in bits 15..0, or refusal 15.
pub fn put_turn(day: u32, out: &mut [u32]) -> Result<usize, Refusal>
    requires { tape_words ≤ length out.old }
    ensures { written result out.new ≡ turn_words day out.old }
{
    if 65536 <= day {
        return Err(Refusal::Field);
    }
    out[0] = words::word(14, day);
    Ok(1)
}

// Does each quote fit its bits?
fn quotes_fit(quotes: &[u32]) -> bool
    ensures { result ≡ all (fits quote_bits) quotes.now }
{
    for quote in quotes {
        if 262144 <= *quote {
            return false;
        }
    }
    true
}

// The head of a roll: kind 7, days in bits 27..24, rate in 23..10, the rest 0.
fn roll_head(days: u32, rate: u32) -> u32
    requires { (days < 2 ^ 4) × (rate < 2 ^ 14) }
    ensures { result ≡ roll_word days rate }
{
    words::word(7, days * 16777216 + rate * 1024)
}

// The words of 32 quotes from the output's second word on, each of kind 9 with a price or an accrued amount in bits 17..0.
fn put_quotes(quotes: &[u32], out: &mut [u32])
    requires { QuotesFit quotes.now out.old }
    ensures { out.new ≡ sets out.old 1 (map quote_word quotes.now) }
{
    for at in 0..QUOTE_COUNT {
        out[at + 1] = words::word(9, quotes[at]);
    }
}

// Do the fields of a roll fit their bits? It has 32 quotes.
fn roll_fits(days: u32, rate: u32, quotes: &[u32]) -> bool
    ensures { result ≡ fields_fit (Roll days rate) quotes.now }
{
    (days < 16) & (rate < 16384) & (quotes.len() == QUOTE_COUNT) & quotes_fit(quotes)
}

// A roll's head and the words of its quotes at the front of the output, or refusal 15.
pub fn put_roll(days: u32, rate: u32, quotes: &[u32], out: &mut [u32]) -> Result<usize, Refusal>
    requires { tape_words ≤ length out.old }
    ensures { written result out.new ≡ roll_words days rate quotes.now out.old }
{
    if !roll_fits(days, rate, quotes) {
        return Err(Refusal::Field);
    }
    out[0] = roll_head(days, rate);
    put_quotes(quotes, out);
    Ok(TAPE_WORDS)
}
