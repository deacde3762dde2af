// The units of an issue that more lots hand over, in the order of the day.
// Nets and lifts come one by one, of the nine columns those that an order is made of.
#![tactic(auto)]

ghost use Rattle.std.specs.Prelude.{true, false};
ghost use Rattle.rules.specs.Book.{order_in};
ghost use Rattle.serving.specs.Serving.{CanServe, Served};

use handing::{hand, newly_covered};
use runs::{RANK_COUNT, RUN_COUNT};

// The units of an issue that x more lots hand over in the order of old, where d were delivered before;
// answers their number.
fn serve(nets: &[i32], lifts: &[u32], i: u32, d: u32, x: u32, out: &mut [u32]) -> usize
    requires { CanServe false nets.now lifts.now i d x out.old }
    ensures { Served (order_in false nets.now lifts.now i) i d x out.old out.new result }
{
    let mut runs = [0u32; RUN_COUNT];
    let n = units::prepare(nets, lifts, i as usize, &mut runs);
    let p = newly_covered(&runs[..n], d, x);
    hand(&runs[..n], i, p.first, p.number, out);
    p.number
}

// The same where full units are dealt in turn. How many units more lots cover is the same in both orders;
// whose they are is read off the order without lifts.
fn serve_dealt(nets: &[i32], lifts: &[u32], i: u32, d: u32, x: u32, out: &mut [u32]) -> usize
    requires { CanServe true nets.now lifts.now i d x out.old }
    ensures { Served (order_in true nets.now lifts.now i) i d x out.old out.new result }
{
    let mut keys = [0u32; RANK_COUNT];
    let mut runs = [0u32; RUN_COUNT];
    let ready = dealing::prepare(nets, lifts, i as usize, &mut keys, &mut runs);
    let p = newly_covered(&runs[..ready.lifted], d, x);
    let mut dealt = [0u32; 264];
    let lent = &mut dealt[..p.number];
    dealing::units_from(&keys, ready.ranks, lifts, i as usize, p.first, lent);
    hand(lent, i, 0, p.number, out);
    p.number
}

// The units of an issue that x more lots hand over, full units dealt in turn or not. The order is a fact of the day, one
// Bool as in the rules (`order_in`). For a delivery it is looked at here and nowhere else: the callers pass it on, and what
// is run for each order is a function of its own.
pub fn serve_in(
    dealt: bool,
    nets: &[i32],
    lifts: &[u32],
    i: u32,
    d: u32,
    x: u32,
    out: &mut [u32],
) -> usize
    requires { CanServe dealt nets.now lifts.now i d x out.old }
    ensures { Served (order_in dealt nets.now lifts.now i) i d x out.old out.new result }
{
    if dealt {
        return serve_dealt(nets, lifts, i, d, x, out);
    }
    serve(nets, lifts, i, d, x, out)
}
