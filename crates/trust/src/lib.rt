// Fails inside a trust account: each report's share of a fail, for a bank in C or Rust.
#![tactic(auto)]

ghost use Rattle.std.specs.Prelude.{◌≡◌};
ghost use Rattle.rules.specs.Measures.{most_lots};
ghost use Rattle.rules.specs.Book.{all, within_size};
ghost use Rattle.rules.specs.Questions.{first_no};
ghost use Rattle.rules.specs.Refusals.{number_in};
ghost use Rattle.reports.specs.Lent.{reports_in};
ghost use Rattle.reports.specs.Trust.{drawn_right, few_right, report_asks, answered, trust};

use drawing::{below, draw_right};
use eligible::sizes_of;
use reports::Columns;
use rules::{ACCOUNT_COUNT, LAST_ACCOUNT, MOST_LOTS, Refusal};
use sharing::share;

// at most so many reports, and as many words of output
const MOST_REPORTS: usize = 256;

// sub-accounts are 0 to 31
const SUB_COUNT: usize = 32;

// Are each report's lots within ±20,000,000? With no early end, so that many are compared at once.
fn lots_right(lots: &[i32]) -> bool
    ensures { result ≡ all (within_size most_lots) lots.now }
{
    let mut good = true;
    for x in lots {
        good &= book::within(*x);
    }
    good
}

// Has every column a place for each report, and is the draw each report number just once?
fn drawn(columns: Columns, draw: &[u32]) -> bool
    ensures { result ≡ drawn_right (reports_in columns.entry) draw.now }
{
    let n = columns.subs.len();
    columns.parties.len() == n
        && columns.lots.len() == n
        && columns.earlier.len() == n
        && draw_right(n, draw)
}

// Are there at most 256 reports, of sub-accounts 0 to 31?
fn few(subs: &[u32]) -> bool
    ensures { result ≡ few_right subs.now }
{
    subs.len() <= MOST_REPORTS && below(subs, SUB_COUNT)
}

// The questions but the last, that of the eligible lots: the first 'no'.
fn report_asks(
    columns: Columns,
    draw: &[u32],
    fail: u32,
    failing: u32,
    out: &[u32],
) -> Result<(), Refusal>
    ensures { number_in result ≡ first_no (report_asks (reports_in columns.entry) draw.now fail failing out.now) }
{
    if out.len() < MOST_REPORTS {
        return Err(Refusal::Output);
    }
    if LAST_ACCOUNT < failing {
        return Err(Refusal::Account);
    }
    if !below(columns.parties, ACCOUNT_COUNT) {
        return Err(Refusal::Account);
    }
    if fail < 1 {
        return Err(Refusal::Lots);
    }
    if MOST_LOTS < fail {
        return Err(Refusal::Lots);
    }
    if !lots_right(columns.lots) {
        return Err(Refusal::Lots);
    }
    if !drawn(columns, draw) {
        return Err(Refusal::Draw);
    }
    if !few(columns.subs) {
        return Err(Refusal::Reports);
    }
    Ok(())
}

// Each report's share of the fail, at the place of its number.
pub fn day_trust(
    columns: Columns,
    draw: &[u32],
    fail: u32,
    failing: u32,
    out: &mut [u32],
) -> Result<(), Refusal>
    ensures { answered (number_in result) out.new ≡ trust (reports_in columns.entry) draw.now fail failing out.old }
{
    report_asks(columns, draw, fail, failing, out)?;
    let n = columns.subs.len();
    let mut sizes = [0u32; MOST_REPORTS];
    let sum = sizes_of(columns.subs, columns.lots, columns.earlier, &mut sizes);
    if sum < fail as u64 {
        return Err(Refusal::Eligible);
    }
    share(failing, &sizes[..n], columns.parties, draw, fail, out);
    Ok(())
}
