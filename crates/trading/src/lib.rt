// trade and close: of each its own questions, and trade's effect in place.
// A trade's numbers stand one by one, as document 01 lists them: its questions are about each.
#![tactic(auto)]

ghost use Rattle.std.specs.Prelude.{◌≡◌};
ghost use Rattle.rules.specs.Refusals.{number_in};
ghost use Rattle.rules.specs.Questions.{first_no};
ghost use Rattle.rules.specs.Calls.{trade_asks, traded_nets, close_asks, Trade, Close};
ghost use Rattle.answers.specs.Turns.{TurnsAlone, on_state, on_nets, trade_ready};
ghost use Rattle.trading.specs.Trading.{SmallNets, Tradable};

use answers::Turn;
use rules::{ACCOUNTS, LAST_ACCOUNT, LAST_ISSUE, MOST_LOTS, Phase, Refusal, State};

// trade's questions but that of soundness: the refusal of the first 'no'.
fn trade_asks(s: State, nets: &[i32], i: u32, f: u32, t: u32, x: u32) -> Result<(), Refusal>
    requires { SmallNets nets.now }
    ensures { number_in result ≡ first_no (trade_asks s.phase s.marks nets.now i f t x) }
{
    let phase = s.phase;
    if !book::taking(phase) {
        return Err(Refusal::Phase);
    }
    if LAST_ISSUE < i {
        return Err(Refusal::Issue);
    }
    if LAST_ACCOUNT < f {
        return Err(Refusal::Account);
    }
    if LAST_ACCOUNT < t {
        return Err(Refusal::Account);
    }
    if f == t {
        return Err(Refusal::SameAccount);
    }
    if x < 1 {
        return Err(Refusal::Lots);
    }
    if MOST_LOTS < x {
        return Err(Refusal::Lots);
    }
    if !book::even_in(s, i, x) {
        return Err(Refusal::OddLots);
    }
    let from = nets[(i * ACCOUNTS + f) as usize];
    if !book::within(book::lowered(from, x)) {
        return Err(Refusal::Net);
    }
    let to = nets[(i * ACCOUNTS + t) as usize];
    if !book::within(book::raised(to, x)) {
        return Err(Refusal::Net);
    }
    Ok(())
}

// From's net falls by the lots, to's rises.
fn trade_in(nets: &mut [i32], i: u32, f: u32, t: u32, x: u32)
    requires { Tradable nets.old i f t x }
    ensures { nets.new ≡ traded_nets nets.old i f t x }
{
    let at = (i * ACCOUNTS + f) as usize;
    let to = (i * ACCOUNTS + t) as usize;
    let falls = nets[at];
    let rises = nets[to];
    nets[at] = book::lowered(falls, x);
    nets[to] = book::raised(rises, x);
}

// close's question but that of soundness.
fn close_asks(s: State) -> Result<(), Refusal>
    ensures { number_in result ≡ first_no (close_asks s.phase) }
{
    let phase = s.phase;
    if book::taking(phase) {
        Ok(())
    } else {
        Err(Refusal::Phase)
    }
}

// trade: the nets of from and to, unless it is refused.
pub fn trade(s: State, nets: &mut [i32], i: u32, f: u32, t: u32, x: u32) -> Result<Turn, Refusal>
    requires { trade_ready s nets }
    ensures { TurnsAlone (on_nets nets) s (Trade i f t x) result }
{
    trade_asks(s, nets, i, f, t, x)?;
    trade_in(nets, i, f, t, x);
    Ok(answers::done(s))
}

// close: the phase, unless it is refused.
pub fn close(s: State) -> Result<Turn, Refusal>
    ensures { TurnsAlone on_state s Close result }
{
    close_asks(s)?;
    let next = book::with_phase(s, Phase::Settling);
    Ok(answers::done(next))
}
