// The questions on a host's book, which change nothing: any numbers, any columns. An answer goes to C as the refusal's
// number, 0 where there is none, and as numbers beside it: the claims of every host are of these.
ghost use Rattle.std.specs.Prelude.{◌≡◌};
ghost use Rattle.rules.specs.Calls.{found_answer};
ghost use Rattle.columns.specs.Books.{shared_book};
ghost use Rattle.told.specs.Status.{told_answer};
ghost use Rattle.desks.specs.Simulation.{tried};
ghost use Rattle.host.specs.States.{state_in};
ghost use Rattle.host.specs.Questions.{sound_number, UnitIs, day_unit, StatusIs, day_status, day_simulation};

use crate::{DayState, held, sound_at, state_in};
use columns::SharedColumns;
use rules::{ISSUE_COUNT, LAST_ISSUE, Refusal, Unit, number_in};
use told::Told;

// Is the book sound? 1 sound, 0 not: the C interface has a number here.
pub fn day_sound(state: DayState, columns: SharedColumns) -> u32
    ensures { result ≡ sound_number state.phase (shared_book (state_in state) columns.entry) }
{
    match held(state, columns) {
        Ok(_) => 1,
        Err(_) => 0,
    }
}

// The unit question's answer in plain numbers: 1, account and lots, or three times 0.
pub fn told(found: Result<Option<Unit>, Refusal>, answer: &mut [u32; 3]) -> u32
    ensures { UnitIs (found_answer found) result answer.new }
{
    *answer = [0, 0, 0];
    match found {
        Ok(Some(unit)) => {
            *answer = [1, unit.account, unit.lots];
            0
        }
        Ok(None) => 0,
        Err(r) => r.number(),
    }
}

// The k-th unit of an issue, k from 0, if there is one.
fn unit_at(
    state: DayState,
    columns: SharedColumns,
    issue: u32,
    k: u32,
) -> Result<Option<Unit>, Refusal>
    ensures { found_answer result ≡ day_unit state.phase (shared_book (state_in state) columns.entry) issue k }
{
    let s = held(state, columns)?;
    if LAST_ISSUE < issue {
        return Err(Refusal::Issue);
    }
    let dealt = book::dealt_today(s);
    let found = inquiry::unit_in(dealt, columns.nets, columns.lifts, issue as usize, k);
    Ok(found)
}

// The same in plain numbers.
pub fn day_unit(
    state: DayState,
    columns: SharedColumns,
    issue: u32,
    k: u32,
    answer: &mut [u32; 3],
) -> u32
    ensures { UnitIs (day_unit state.phase (shared_book (state_in state) columns.entry) issue k) result answer.new }
{
    told(unit_at(state, columns, issue, k), answer)
}

// What is told of a unit in plain numbers: the case and its lots, or twice 0.
pub fn plain(told: Result<Told, Refusal>, answer: &mut [u32; 2]) -> u32
    ensures { StatusIs (told_answer told) result answer.new }
{
    *answer = match told {
        Ok(Told::Handed) => [1, 0],
        Ok(Told::Waiting(n)) => [2, n],
        Ok(Told::PartlyFailed(x)) => [3, x],
        Ok(Told::WhollyFailed) => [4, 0],
        Err(_) => [0, 0],
    };
    number_in(told)
}

// What is told of unit k of an issue, k from 0.
fn told_at(state: DayState, columns: SharedColumns, issue: u32, k: u32) -> Result<Told, Refusal>
    ensures { told_answer result ≡ day_status state.phase (shared_book (state_in state) columns.entry) issue k }
{
    let s = held(state, columns)?;
    let phase = s.phase;
    status::status_in(
        phase,
        columns.nets,
        columns.delivered,
        columns.lifts,
        issue,
        k,
    )
}

// The same in plain numbers.
pub fn day_status(
    state: DayState,
    columns: SharedColumns,
    issue: u32,
    k: u32,
    answer: &mut [u32; 2],
) -> u32
    ensures { StatusIs (day_status state.phase (shared_book (state_in state) columns.entry) issue k) result answer.new }
{
    plain(told_at(state, columns, issue, k), answer)
}

// How a simulated desk goes with units of this size: the refusal's number, 0 where it is done.
pub fn day_simulate<'a>(
    state: DayState,
    columns: SharedColumns,
    settles: &'a [u32],
    inventories: &'a [u32],
    size: u32,
    deliveries: &mut u64,
    rounds: &mut u64,
    owed: &mut [u32; ISSUE_COUNT],
) -> u32
    ensures { tried result deliveries.new rounds.new owed.new ≡ day_simulation state.phase (shared_book (state_in state) columns.entry) settles.now inventories.now size }
{
    let s = state_in(state);
    let good = sound_at(state.phase, s, columns);
    *deliveries = 0;
    *rounds = 0;
    *owed = [0; ISSUE_COUNT];
    if let Err(r) = sizes::asks::simulation_asks(good, settles, inventories, size) {
        return r.number();
    }
    let t = sizes::simulate(columns.nets, settles, inventories, size, owed);
    *deliveries = t.deliveries;
    *rounds = t.rounds;
    0
}
