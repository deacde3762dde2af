// Along an issue's units: the unit behind a place, how many there are, and what a delivered total covers.
#![tactic(auto)]

ghost use Rattle.std.specs.Prelude.{◌≡◌, ◌≤◌, length};
ghost use Rattle.runs.specs.Runs.{units_of_words};
ghost use Rattle.handover.specs.Walking.{SeatIs, NextIs, HandedIs};

use rules::{ACCOUNTS, UNIT_LOTS, Unit};
use runs::MOST_SMALL;

// A place in front of a unit: behind so many units of the runs from `run` on.
#[derive(Clone, Copy, Drop)]
pub struct Seat {
    pub run: usize,
    pub passed: u32,
}

// The place in front of unit k, k from 0.
#[tactic(auto, unfolding(crate::specs::Walking::units_from))]
pub fn seek(k: u32) -> Seat
    ensures { SeatIs k result }
{
    Seat { run: 0, passed: k }
}

// The unit behind a place, and the place behind it; none where no unit is left.
#[tactic(auto, unfolding(crate::specs::Walking::units_from))]
pub fn next_unit(runs: &[u32], s: Seat) -> Option<(Unit, Seat)>
    ensures { NextIs runs.now s result }
{
    let mut passed = s.passed;
    for run in s.run..runs.len() {
        let lots = runs[run] / ACCOUNTS;
        let count = (lots + MOST_SMALL) / UNIT_LOTS;
        if passed < count {
            let unit = Unit {
                account: runs[run] % ACCOUNTS,
                lots: (lots - passed * UNIT_LOTS).min(UNIT_LOTS),
            };
            let next = Seat {
                run,
                passed: passed + 1,
            };
            return Some((unit, next));
        }
        passed -= count;
    }
    None
}

// How many units runs stand for.
pub fn number(runs: &[u32]) -> u32
    requires { length runs.now ≤ 144 }
    ensures { result ≡ length (units_of_words runs.now) }
{
    let mut count: u32 = 0;
    for run in runs {
        count += (*run / ACCOUNTS + MOST_SMALL) / UNIT_LOTS;
    }
    count
}

// How many units a delivered total covers, and the stock: what is then left of it.
#[derive(Clone, Copy, Drop)]
pub struct Handed {
    pub count: u32,
    pub stock: u32,
}

// What a delivered total covers of the units.
pub fn handover(runs: &[u32], d: u32) -> Handed
    requires { length runs.now ≤ 144 }
    ensures { HandedIs (units_of_words runs.now) d result }
{
    let mut left = d;
    let mut count: u32 = 0;
    for run in runs {
        let lots = *run / ACCOUNTS;
        if left < lots {
            return Handed {
                count: count + left / UNIT_LOTS,
                stock: left % UNIT_LOTS,
            };
        }
        left -= lots;
        count += (lots + MOST_SMALL) / UNIT_LOTS;
    }
    Handed { count, stock: left }
}
