// Units handed over: which of them more lots cover, and a record each.
#![tactic(auto)]

ghost use Rattle.std.specs.Prelude.{◌≡◌, drop};
ghost use Rattle.rules.specs.Records.{words, over};
ghost use Rattle.runs.specs.Runs.{units_of_words};
ghost use Rattle.handing.specs.Handing.{CanHand, hand_records, CanCount, NewlyCovered};

// Hands over `count` units from unit c on: one record each.
pub fn hand(runs: &[u32], i: u32, c: u32, count: usize, out: &mut [u32])
    requires { CanHand runs.now i c count out.old }
    ensures { out.new ≡ over (words (hand_records i count (drop c (units_of_words runs.now)))) out.old }
{
    let mut seat = handover::seek(c);
    for m in 0..count {
        let Some((unit, next)) = handover::next_unit(runs, seat) else {
            return;
        };
        words::record(&mut out[2 * m..], 10, i, 0, unit.account, unit.lots);
        seat = next;
    }
}

// Units that more lots cover: the first of them, and how many they are.
#[derive(Clone, Copy, Drop)]
pub struct NextUnits {
    pub first: u32,
    pub number: usize,
}

// The units that x more lots cover, where d cover those before them.
pub fn newly_covered(runs: &[u32], d: u32, x: u32) -> NextUnits
    requires { CanCount runs.now d x }
    ensures { NewlyCovered (units_of_words runs.now) d x result }
{
    let before = handover::handover(runs, d);
    let after = handover::handover(runs, d + x);
    NextUnits {
        first: before.count,
        number: (after.count - before.count) as usize,
    }
}
