// Runs after a delivered total: those that wait, and of them each account's full lots at the place of
// its first full run, however many lifts have parted them.
#![tactic(auto)]

ghost use Rattle.std.specs.Prelude.{◌≡◌, ◌≤◌, map, length, get_or};
ghost use Rattle.runs.specs.Runs.{part_of};
ghost use Rattle.gathering.specs.Gathering.{laid, fulls_of, SumsAre, HandsOn, CanGather, CanSum, CanSpread};

use rules::{ACCOUNT_COUNT, ACCOUNTS, UNIT_LOTS};
use runs::{MOST_SMALL, UNIT_WORD};

// Where a delivered total ends: how many units it covers, the first run that waits behind them, and the stock.
#[derive(Clone, Copy, Drop)]
pub struct Waiting {
    pub run: usize,
    pub count: u32,
    pub stock: u32,
}

// What a delivered total covers of the units is taken off their runs: those that wait are left.
pub fn hand_on(runs: &mut [u32], total: u32) -> Waiting
    requires { length runs.old ≤ 144 }
    ensures { HandsOn runs.old runs.new total result }
{
    let mut left = total;
    let mut count: u32 = 0;
    for (j, key) in runs.iter_mut().enumerate() {
        let lots = *key / ACCOUNTS;
        if left < lots {
            let whole = left / UNIT_LOTS;
            *key -= whole * UNIT_WORD;
            return Waiting {
                run: j,
                count: count + whole,
                stock: left % UNIT_LOTS,
            };
        }
        left -= lots;
        count += (lots + MOST_SMALL) / UNIT_LOTS;
    }
    Waiting {
        run: runs.len(),
        count,
        stock: left,
    }
}

// Each account's full lots.
fn sums(runs: &[u32], full: &mut [u32])
    requires { CanSum runs.now full.old }
    ensures { SumsAre runs.now full.new }
{
    for key in runs {
        full[(*key % ACCOUNTS) as usize] += *key / UNIT_WORD * UNIT_LOTS;
    }
}

// At a full run what is left of its account's full lots, and nothing at later ones.
fn spread(runs: &mut [u32], full: &mut [u32])
    requires { CanSpread full.old }
    ensures { map part_of runs.new ≡ laid (λ a. get_or full.old a 0) (map part_of runs.old) }
{
    for key in runs {
        if *key < UNIT_WORD {
            continue;
        }
        let a = (*key % ACCOUNTS) as usize;
        *key = full[a] * ACCOUNTS + *key % ACCOUNTS;
        full[a] = 0;
    }
}

// An account's full runs become one, at the place of the first; 0 lots stand for none.
pub fn gather(runs: &mut [u32])
    requires { CanGather runs.old }
    ensures { map part_of runs.new ≡ laid (fulls_of runs.old) (map part_of runs.old) }
{
    let mut full = [0u32; ACCOUNT_COUNT];
    sums(runs, &mut full);
    spread(runs, &mut full);
}
