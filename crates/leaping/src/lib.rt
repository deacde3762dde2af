// For how many rounds more an issue can hand over what a round handed over.
#![tactic(auto)]

ghost use Rattle.std.specs.Prelude.{map};
ghost use Rattle.runs.specs.Runs.{part_of};
ghost use Rattle.simulation.specs.Repeated.{AgainFor};
ghost use Rattle.ranking.specs.Runs.{units_of_runs};
ghost use Rattle.leaping.specs.Room.{CanLeap};

use rules::ACCOUNTS;

// For how many rounds more can an issue hand over what a round of x lots handed over, from d on? As many as
// stay in the run of full units in which they began.
pub fn run_rounds(runs: &[u32], size: u32, d: u32, x: u32) -> u32
    requires { CanLeap size x }
    ensures { AgainFor (units_of_runs size (map part_of runs.now)) d x result }
{
    if x % size != 0 {
        return 0;
    }
    let mut b = d;
    for key in runs {
        let lots = *key / ACCOUNTS;
        if b < lots {
            if lots % size != 0 {
                return 0;
            }
            let room = lots - b;
            if room <= x {
                return 0;
            }
            return (room - x - 1) / x;
        }
        b -= lots;
    }
    0
}
