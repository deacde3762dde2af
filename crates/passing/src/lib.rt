// Instructions of a tape that follow one another, answered on the columns that they change alone, and their lines: trades
// on the nets, deliveries on what is kept of each issue. A day has hundreds of them, and a long tape millions.
#![tactic(auto)]

ghost use Rattle.std.specs.Prelude.{◌≡◌, ◌+◌, ◌*◌, ◌≤◌, ◌<◌, ◌^◌, length};
ghost use Rattle.rules.specs.Refusals.{number_in};
ghost use Rattle.rules.specs.Run.{line};
ghost use Rattle.rules.specs.Text.{line_text};
ghost use Rattle.report.specs.Added.{Added};
ghost use Rattle.answers.specs.Turns.{count_in, within_nets, within_cells};
ghost use Rattle.delivery.specs.Deliver.{KeepsEach};
ghost use Rattle.passing.specs.Going.{enough, SomeHeld, IsPlace, Passed};

use answers::Turn;
use report::text;
use rules::{Name, Refusal, State, TAPE_WORDS};
use tape::{delivery_of, trade_of};
use waiting::Kept;

// Where a run stands: at which word, and where its text ends.
#[derive(Clone, Copy, Drop)]
pub struct Place {
    pub at: usize,
    pub end: usize,
}

// The line of an answer: its number and its count. In place at each call, for speed: a tape of trades spends most of its
// time here.
#[inline(always)]
pub fn answer_line(
    text: &mut [u8],
    at: usize,
    index: u64,
    n: Name,
    answer: Result<Turn, Refusal>,
) -> usize
    requires { at + 72 ≤ length text.old }
    ensures { Added 72 text.old text.new at result (line_text (line index n (number_in answer) (count_in answer))) }
{
    match answer {
        Ok(t) => text::line(text, at, index, n, 0, t.count),
        Err(r) => text::line(text, at, index, n, r.number(), 0),
    }
}

// Can a whole instruction be read out of so many words? Any can where no more will come.
pub fn is_enough(left: usize, last: bool) -> bool
    ensures { result ≡ enough left last }
{
    if last { 0 < left } else { TAPE_WORDS <= left }
}

// The trades from a place on, up to another instruction, each answered on the nets alone, and their lines.
pub fn trades(
    words: &[u32],
    last: bool,
    index: u64,
    s: State,
    nets: &mut [i32],
    text: &mut [u8],
    from: usize,
    to: usize,
) -> Place
    requires { SomeHeld (within_nets s nets.old) × IsPlace words.now index text.old from to }
    ensures { Passed words.now last index (within_nets s nets.old) (within_nets s nets.new) text.old text.new from to result.at result.end }
{
    let mut at = from;
    let mut end = to;
    // It goes on by two words a trade, up to another instruction, and hands on both places.
    while is_enough(words.len() - at, last) {
        let Some(t) = trade_of(&words[at..]) else {
            return Place { at, end };
        };
        let r = trading::trade(s, nets, t.issue, t.from, t.to, t.lots);
        end = answer_line(text, end, index + at as u64, Name::Trade, r);
        at += 2;
    }
    Place { at, end }
}

// The deliveries from a place on, up to another instruction, where what is kept is right: each answered on what is kept of
// its issue, and their lines.
fn deliveries_on(
    words: &[u32],
    last: bool,
    index: u64,
    s: State,
    nets: &[i32],
    delivered: &mut [u32],
    lifts: &mut [u32],
    kept: &mut [Kept],
    text: &mut [u8],
    from: usize,
    to: usize,
) -> Place
    requires { SomeHeld (within_cells s nets.now delivered.old lifts.old) × KeepsEach nets.now delivered.old lifts.old kept.old × IsPlace words.now index text.old from to }
    ensures { Passed words.now last index (within_cells s nets.now delivered.old lifts.old) (within_cells s nets.now delivered.new lifts.new) text.old text.new from to result.at result.end }
{
    let mut at = from;
    let mut end = to;
    // It goes on by two words a delivery, up to another instruction, and hands on both places.
    while is_enough(words.len() - at, last) {
        let Some(d) = delivery_of(&words[at..]) else {
            return Place { at, end };
        };
        let r = delivery::deliver_counted(
            s, nets, delivered, lifts, d.issue, d.account, d.lots, kept,
        );
        end = answer_line(text, end, index + at as u64, Name::Deliver, r);
        at += 2;
    }
    Place { at, end }
}

// The same of any words: for others than deliveries nothing is kept. In place at each call, for speed: most instructions are
// no deliveries.
#[inline(always)]
pub fn deliveries(
    words: &[u32],
    last: bool,
    index: u64,
    s: State,
    nets: &[i32],
    delivered: &mut [u32],
    lifts: &mut [u32],
    kept: &mut [Kept],
    text: &mut [u8],
    from: usize,
    to: usize,
) -> Place
    requires { SomeHeld (within_cells s nets.now delivered.old lifts.old) × (length kept.old ≡ 16) × IsPlace words.now index text.old from to }
    ensures { Passed words.now last index (within_cells s nets.now delivered.old lifts.old) (within_cells s nets.now delivered.new lifts.new) text.old text.new from to result.at result.end }
{
    if delivery_of(&words[from..]).is_none() {
        return Place { at: from, end: to };
    }
    delivery::forget(kept);
    deliveries_on(
        words, last, index, s, nets, delivered, lifts, kept, text, from, to,
    )
}
