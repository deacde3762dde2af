// Lifts among runs: the unit is taken out of its run, and put in where another run is split.
#![tactic(auto)]

ghost use Rattle.std.specs.Prelude.{◌≡◌, ◌+◌, ◌-◌, ◌*◌, ◌/◌, ◌%◌, ◌<◌, min, length};
ghost use Rattle.lifted.specs.Lifting.{HasUnit, UnitAt, TakenOut, CanPut, PutIn, CanLift, LiftedIs, CanLiftAll, AllLifted};

use handover::Seat;
use rules::{ACCOUNTS, UNIT_LOTS};
use runs::{MOST_SMALL, UNIT_WORD};
use sorting::shift;

// The run of unit k, and how many of its units come before it.
fn find(runs: &[u32], k: u32) -> Seat
    requires { HasUnit runs.now (length runs.now) k }
    ensures { UnitAt runs.now (length runs.now) k result }
{
    let mut left = k;
    for (j, key) in runs.iter().enumerate() {
        let c = (*key / ACCOUNTS + MOST_SMALL) / UNIT_LOTS;
        if left < c {
            return Seat {
                run: j,
                passed: left,
            };
        }
        left -= c;
    }
    Seat {
        run: runs.len(),
        passed: left,
    }
}

// The m-th unit of a run, as a word.
fn piece(key: u32, m: u32) -> u32
    requires { m * 100000 < key / 64 }
    ensures { result ≡ min 100000 (key / 64 - m * 100000) * 64 + key % 64 }
{
    let rest = key - m * UNIT_WORD;
    if rest < UNIT_WORD {
        return rest;
    }
    UNIT_WORD + key % ACCOUNTS
}

// Unit k taken out of the runs: its run falls by its lots; answers the unit as a word.
fn take_out(runs: &mut [u32], k: u32) -> u32
    requires { HasUnit runs.old (length runs.old) k }
    ensures { TakenOut runs.old runs.new (length runs.old) k result }
{
    let s = find(runs, k);
    let j = s.run;
    let key = runs[j];
    let word = piece(key, s.passed);
    runs[j] = key - word / ACCOUNTS * ACCOUNTS;
    word
}

// A word's units put in front of unit k, whose run is split there: two runs more. Here and below the array is lent whole,
// with the number of its words that are runs: the two take the places behind them, and there is no heap.
fn put_in(runs: &mut [u32], n: usize, k: u32, word: u32)
    requires { CanPut runs.old n k }
    ensures { PutIn runs.old runs.new n k word }
{
    let s = find(&runs[..n], k);
    let j = s.run;
    let key = runs[j];
    let front = s.passed * UNIT_WORD;
    runs[j] = front + key % ACCOUNTS;
    shift(runs, j + 1, n, word);
    shift(runs, j + 2, n + 1, key - front);
}

// The unit at place old goes to place new; answers the number of runs.
pub fn lift(runs: &mut [u32], n: usize, old: u32, new: u32) -> usize
    requires { CanLift runs.old n old new }
    ensures { LiftedIs runs.old runs.new n old new result }
{
    if old == new {
        return n;
    }
    let word = take_out(&mut runs[..n], old);
    put_in(runs, n, new, word);
    n + 2
}

// An issue's lifts, one after the other, from its 18 words; answers the number of runs.
pub fn lift_all(words: &[u32], runs: &mut [u32], n: usize) -> usize
    requires { CanLiftAll words.now runs.old n }
    ensures { AllLifted words.now runs.old runs.new n result }
{
    let mut r = n;
    for i in 0..words[0] as usize {
        r = lift(runs, r, words[2 * i + 2], words[2 * i + 3]);
    }
    r
}
