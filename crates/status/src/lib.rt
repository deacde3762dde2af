// The reason a unit has not come: for issue and unit number the book tells one of handed, waiting, partly
// failed and wholly failed. The units are those of the order as lifted, in Settling and in Cut. It goes by
// lots alone, and those are the same, place by place, whether full units are dealt in turn or not.
// Nets, delivered lots and lifts come one by one, of the nine columns those that are asked for.
#![tactic(auto)]

ghost use Rattle.std.specs.Prelude.{◌≡◌, ◌<◌, suc, take};
ghost use Rattle.rules.specs.Units.{sum_lots};
ghost use Rattle.book.specs.Cells.{SoundCells};
ghost use Rattle.runs.specs.Runs.{units_of_words};
ghost use Rattle.told.specs.Status.{told_answer};
ghost use Rattle.status.specs.Columns.{CanTell, reason_at, status_of, InEither};

use rules::{ACCOUNT_COUNT, ACCOUNTS, LAST_ISSUE, Phase, Refusal, UNIT_LOTS};
use runs::{MOST_SMALL, RUN_COUNT};
use told::Told;

// The lots of all units up to unit k, it included, of the units that words stand for.
fn lots_up_to(runs: &[u32], k: u32) -> u32
    requires { sum_lots (units_of_words runs.now) < 4294967296 }
    ensures { result ≡ sum_lots (take (suc k) (units_of_words runs.now)) }
{
    let mut left = k;
    let mut sum: u32 = 0;
    for run in runs {
        let lots = *run / ACCOUNTS;
        let c = (lots + MOST_SMALL) / UNIT_LOTS;
        if left < c {
            return sum + lots.min((left + 1) * UNIT_LOTS);
        }
        left -= c;
        sum += lots;
    }
    sum
}

// Of the units that words stand for, with so many lots delivered: question 16 of unit k, and the reason.
fn tell(phase: Phase, runs: &[u32], d: u32, k: u32) -> Result<Told, Refusal>
    requires { CanTell runs.now }
    ensures { told_answer result ≡ reason_at phase (units_of_words runs.now) d k }
{
    let Some(unit) = inquiry::unit_at(runs, k) else {
        return Err(Refusal::Unit);
    };
    let h = handover::handover(runs, d);
    if k < h.count {
        return Ok(Told::Handed);
    }
    if !book::cut(phase) {
        return Ok(Told::Waiting(lots_up_to(runs, k) - d));
    }
    if (k == h.count) & (0 < h.stock) {
        return Ok(Told::PartlyFailed(unit.lots - h.stock));
    }
    Ok(Told::WhollyFailed)
}

// Questions 3, 4 and 16 of a sound book, and the reason.
pub fn status_in<'a>(
    phase: Phase,
    nets: &'a [i32],
    delivered: &'a [u32],
    lifts: &'a [u32],
    i: u32,
    k: u32,
) -> Result<Told, Refusal>
    requires { SoundCells nets.now delivered.now lifts.now }
    ensures { InEither (λ new. status_of new phase nets.now delivered.now lifts.now i k) (told_answer result) }
{
    if book::taking(phase) {
        return Err(Refusal::Phase);
    }
    if LAST_ISSUE < i {
        return Err(Refusal::Issue);
    }
    let s = i as usize * ACCOUNT_COUNT;
    let e = s + ACCOUNT_COUNT;
    let mut runs = [0u32; RUN_COUNT];
    let n = units::prepare(nets, lifts, i as usize, &mut runs);
    let d = book::total(&delivered[s..e]);
    tell(phase, &runs[..n], d, k)
}
