// The tape: its reader and its writer.
#![tactic(auto)]

ghost use Rattle.std.specs.Prelude.{◌≡◌, ◌<◌, cond, ◌-◌, eqb, get_or, drop, Some, None};
ghost use Rattle.std.proofs.lemmas.List.Edits.{sets};
ghost use Rattle.rules.specs.Records.{lots_bits, of_field};
ghost use Rattle.rules.specs.Refusals.{numbered, number_in};
ghost use Rattle.rules.specs.declared.Word.TheVariants.{Head};
ghost use Rattle.rules.specs.Tape.{word_as, is_after, words_wrong, read_of, quotes_of, write_of};
ghost use Rattle.writing.specs.Answers.{written};
ghost use Rattle.tape.specs.Found.{HeadAndLots, FoundTrade, FoundDelivery};

use rules::{Instruction, QUOTE_COUNT, Refusal, TAPE_WORDS, Word};
use words::Field;
use writing::{put_head, put_mark, put_roll, put_turn};

// The numbers of a trade.
#[derive(Clone, Copy, Drop)]
pub struct Trade {
    pub issue: u32,
    pub from: u32,
    pub to: u32,
    pub lots: u32,
}

// The numbers of a delivery.
#[derive(Clone, Copy, Drop)]
pub struct Delivery {
    pub issue: u32,
    pub account: u32,
    pub lots: u32,
}

// A word taken as x, where its unused bits, which hold `unused`, are 0.
fn clear(unused: u32, x: Word) -> Option<Word>
    ensures { result ≡ cond (eqb unused 0) (Some x) None }
{
    if unused != 0 {
        return None;
    }
    Some(x)
}

// The head of instruction x: the kind of the words that follow it, and the count of all its words.
fn head(unused: u32, x: Instruction, kind: u32, count: usize) -> Option<Word>
    ensures { result ≡ cond (eqb unused 0) (Some (Head x kind count)) None }
{
    clear(unused, Word::Head(x, kind, count))
}

// What a word is taken as, with the lots of the word after it: by its kind the head of a call or a word
// after a head; none where it is wrong. In place at each call, for speed.
#[inline(always)]
fn word_as(w: u32, lots: u32) -> Option<Word>
    ensures { result ≡ word_as w lots }
{
    let issue = Field::Issue.of(w);
    let from = Field::From.of(w);
    match Field::Kind.of(w) {
        1 => head(
            w % 4096,
            Instruction::Trade(issue, from, Field::To.of(w), lots),
            8,
            2,
        ),
        2 => head(w % 262144, Instruction::Deliver(issue, from, lots), 8, 2),
        3 => head(w % 262144, Instruction::Resolve(issue, from, lots), 8, 2),
        4 => head(w % 262144, Instruction::PairOff(issue, from), 0, 1),
        5 => head(w % 268435456, Instruction::Close, 0, 1),
        6 => head(w % 268435456, Instruction::Cutoff, 0, 1),
        7 => head(
            w % 1024,
            Instruction::Roll(Field::Days.of(w), Field::Rate.of(w)),
            9,
            TAPE_WORDS,
        ),
        8 => Some(Word::After(8)),
        9 => clear(w / 262144 % 1024, Word::After(9)),
        13 => head(
            w / 2 % 8388608,
            Instruction::Mark(issue, Field::Mark.of(w)),
            0,
            1,
        ),
        14 => head(w / 65536 % 4096, Instruction::Turn(Field::Day.of(w)), 0, 1),
        0 => None,
        10..=15 => None,
        _ => None,
    }
}

// The lots that the word after a head holds, 0 where there is none.
fn lots_in(tape: &[u32]) -> u32
    ensures { result ≡ of_field lots_bits (get_or tape.now 1 0) }
{
    match tape.get(1) {
        Some(w) => Field::Lots.of(*w),
        None => 0,
    }
}

// Is this a word of kind k after a head?
fn is_after(w: u32, k: u32) -> bool
    ensures { result ≡ is_after k (word_as w 0) }
{
    match word_as(w, 0) {
        Some(Word::After(kind)) => kind == k,
        _ => false,
    }
}

// The first of the words after a head that is missing or not of kind k, up to `count` words in all.
#[tactic(auto, using(crate::proofs::Reading::missing, crate::proofs::Reading::one_word))]
fn asked(tape: &[u32], k: u32, count: usize) -> Result<(), Refusal>
    ensures { number_in result ≡ words_wrong k (count - 1) (drop 1 tape.now) }
{
    for at in 1..count {
        if tape.len() <= at {
            return Err(Refusal::Cut);
        }
        if !is_after(tape[at], k) {
            return Err(Refusal::Word);
        }
    }
    Ok(())
}

// The instruction that a tape begins with and its word count.
#[tactic(auto, unfolding(rules::specs::Tape::read_of))]
pub fn read(tape: &[u32]) -> Result<(Instruction, usize), Refusal>
    ensures { numbered result ≡ read_of tape.now }
{
    if tape.len() == 0 {
        return Err(Refusal::Cut);
    }
    match word_as(tape[0], lots_in(tape)) {
        Some(Word::Head(x, k, count)) => {
            asked(tape, k, count)?;
            Ok((x, count))
        }
        _ => Err(Refusal::Word),
    }
}

// The head and the lots of an instruction of two words, if some words begin with one of this kind, whole and right: the bits
// below `unused` are 0.
fn head_and_lots(ws: &[u32], kind: u32, unused: u32) -> Option<(u32, u32)>
    requires { 0 < unused }
    ensures { HeadAndLots ws.now kind unused result }
{
    if ws.len() < 2 {
        return None;
    }
    let head = ws[0];
    let lots = ws[1];
    if Field::Kind.of(head) != kind || head % unused != 0 || Field::Kind.of(lots) != 8 {
        return None;
    }
    Some((head, lots))
}

// The trade that some words begin with, if they begin with one.
pub fn trade_of(ws: &[u32]) -> Option<Trade>
    ensures { FoundTrade ws.now result }
{
    let (head, lots) = head_and_lots(ws, 1, 4096)?;
    Some(Trade {
        issue: Field::Issue.of(head),
        from: Field::From.of(head),
        to: Field::To.of(head),
        lots: Field::Lots.of(lots),
    })
}

// The delivery that some words begin with, if they begin with one.
pub fn delivery_of(ws: &[u32]) -> Option<Delivery>
    ensures { FoundDelivery ws.now result }
{
    let (head, lots) = head_and_lots(ws, 2, 262144)?;
    Some(Delivery {
        issue: Field::Issue.of(head),
        account: Field::From.of(head),
        lots: Field::Lots.of(lots),
    })
}

// A roll's quotes, sixteen prices and then sixteen accrued amounts, issue 0 first in both, from the words
// after its head into those lent, as far as both reach.
#[tactic(auto, using(crate::proofs::QuoteWords::quotes_next, crate::proofs::QuoteWords::sets_out, crate::proofs::QuoteWords::quote_none), unfolding(rules::specs::Tape::quotes_of))]
pub fn quotes(tape: &[u32], quotes: &mut [u32])
    ensures { quotes.new ≡ sets quotes.old 0 (quotes_of tape.now) }
{
    for at in 0..QUOTE_COUNT
        .min(quotes.len())
        .min(tape.len().saturating_sub(1))
    {
        quotes[at] = Field::Quote.of(tape[at + 1]);
    }
}

// The words of an instruction at the front of the output; those after the last keep their content.
// A roll has 32 quotes; any other instruction ignores them. A refusal changes nothing.
#[tactic(auto, unfolding(rules::specs::Tape::write_of))]
pub fn write(x: Instruction, quotes: &[u32], out: &mut [u32]) -> Result<usize, Refusal>
    ensures { written result out.new ≡ write_of x quotes.now out.old }
{
    if out.len() < TAPE_WORDS {
        return Err(Refusal::Output);
    }
    match x {
        Instruction::Trade(issue, from, to, lots) => put_head(1, issue, from, to, Some(lots), out),
        Instruction::Deliver(issue, from, lots) => put_head(2, issue, from, 0, Some(lots), out),
        Instruction::Resolve(issue, from, lots) => put_head(3, issue, from, 0, Some(lots), out),
        Instruction::PairOff(issue, account) => put_head(4, issue, account, 0, None, out),
        Instruction::Close => put_head(5, 0, 0, 0, None, out),
        Instruction::Cutoff => put_head(6, 0, 0, 0, None, out),
        Instruction::Roll(days, rate) => put_roll(days, rate, quotes, out),
        Instruction::Mark(issue, mark) => put_mark(issue, mark, out),
        Instruction::Turn(day) => put_turn(day, out),
    }
}
