// The units of an issue that wait, kept from delivery to delivery: more lots go on from where the last ones ended, and the
// order is not made again.
#![tactic(auto)]

ghost use Rattle.std.specs.Prelude.{◌+◌, ◌<◌, false};
ghost use Rattle.rules.specs.Book.{order_in};
ghost use Rattle.runs.specs.Runs.{CanOrder};
ghost use Rattle.waiting.specs.Waiting.{Ready, Keeps, More};

use gathering::hand_on;
use runs::RUN_COUNT;

// What is kept of an issue: the runs of its units, of which those from `first` on wait, their number, and the stock.
#[derive(Clone, Copy, Drop)]
pub struct Kept {
    pub runs: [u32; RUN_COUNT],
    pub number: usize,
    pub first: usize,
    pub stock: u32,
}

// What waits of an issue's units where d lots are delivered.
pub fn keep(nets: &[i32], lifts: &[u32], i: usize, d: u32) -> Kept
    requires { CanOrder nets.now lifts.now i }
    ensures { Keeps (order_in false nets.now lifts.now i) d result }
{
    let mut runs = [0u32; RUN_COUNT];
    let number = units::prepare(nets, lifts, i, &mut runs);
    let p = hand_on(&mut runs[..number], d);
    Kept {
        runs,
        number,
        first: p.run,
        stock: p.stock,
    }
}

// x more lots: what they hand over is taken off what waits; answers the number of units.
pub fn more(k: &mut Kept, x: u32) -> u32
    requires { Ready k.old × (k.old.stock + x < 4294967296) }
    ensures { More k.old k.new x result }
{
    let p = hand_on(&mut k.runs[k.first..k.number], k.stock + x);
    k.first += p.run;
    k.stock = p.stock;
    p.count
}
