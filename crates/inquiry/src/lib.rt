// The unit question: of units in a lent array, and of a sound book in either order.
// Nets and lifts come one by one, of the nine columns those that an order is made of.
#![tactic(auto)]

ghost use Rattle.std.specs.Prelude.{◌≡◌, drop};
ghost use Rattle.rules.specs.Book.{order_in};
ghost use Rattle.runs.specs.Runs.{found_of, units_of_words, CanOrder};

use rules::Unit;
use runs::RUN_COUNT;

// Unit k of the units that words stand for, k from 0, if there is one.
pub fn unit_at(runs: &[u32], k: u32) -> Option<Unit>
    ensures { result ≡ found_of (drop k (units_of_words runs.now)) }
{
    let s = handover::seek(k);
    match handover::next_unit(runs, s) {
        Some((unit, _)) => Some(unit),
        None => None,
    }
}

// The k-th unit of an issue, full units dealt in turn or not. Which it is, is a fact of the day that the definitions take
// (`order_in`), and is told apart here.
#[tactic(auto, unfolding(runs::specs::Runs::units_in))]
pub fn unit_in(dealt: bool, nets: &[i32], lifts: &[u32], i: usize, k: u32) -> Option<Unit>
    requires { CanOrder nets.now lifts.now i }
    ensures { result ≡ found_of (drop k (order_in dealt nets.now lifts.now i)) }
{
    if dealt {
        return dealing::unit(nets, lifts, i, k);
    }
    let mut runs = [0u32; RUN_COUNT];
    let n = units::prepare(nets, lifts, i, &mut runs);
    unit_at(&runs[..n], k)
}
