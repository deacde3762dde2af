// The calls and the questions on a host's book with their caller, for hosts in C. Each call is that of the library `callers`,
// with the same contract. C lends nine columns, so they are parameters here.
#![tactic(auto)]

ghost use Rattle.std.specs.Prelude.{◌≡◌};
ghost use Rattle.book.specs.States.{columns, shared_columns, lifting_columns};
ghost use Rattle.desks.specs.Simulation.{tried};
ghost use Rattle.desk.specs.Fields.{instruction_of};
ghost use Rattle.host.specs.States.{book_at};
ghost use Rattle.host.specs.Questions.{UnitIs, StatusIs};
ghost use Rattle.host.specs.Lifts.{AskIs};
ghost use Rattle.callers.specs.Callers.{DayCalledBy, day_unit_by, day_status_by, day_asked_by, DayCommittedBy, day_simulation_by, day_look, seen_in};

use callers::DaySeen;
use columns::{LentColumns, SharedColumns};
use host::lifts::OtherColumns;
use host::{DayState, DayTurned};
use rules::{Caller, ISSUE_COUNT};

// The call of an instruction by a caller, with roll's quotes and an output beside it. The answer is the house's: of it a
// participant may be told the refusal's number alone.
#[unsafe(no_mangle)]
pub extern "C" fn day_call_as(
    w: Caller,
    kind: u32,
    a: u32,
    b: u32,
    c: u32,
    d: u32,
    quotes: &[u32],
    state: DayState,
    nets: &mut [i32],
    delivered: &mut [u32],
    lifts: &mut [u32],
    charges: &mut [i64],
    issues: &mut [u8],
    froms: &mut [u8],
    tos: &mut [u8],
    lots: &mut [u32],
    days: &mut [u16],
    out: &mut [u32],
) -> DayTurned
    ensures { DayCalledBy w kind (instruction_of kind a b c d) quotes out state result (columns nets delivered lifts charges issues froms tos lots days) }
{
    let mut columns = LentColumns {
        nets: &mut *nets,
        delivered: &mut *delivered,
        lifts: &mut *lifts,
        charges: &mut *charges,
        issues: &mut *issues,
        froms: &mut *froms,
        tos: &mut *tos,
        lots: &mut *lots,
        days: &mut *days,
    };
    callers::day_call_as(w, kind, a, b, c, d, quotes, state, &mut columns, out)
}

// The k-th unit of an issue, for a caller: the operator's alone.
#[unsafe(no_mangle)]
pub extern "C" fn day_unit_as<'a>(
    w: Caller,
    state: DayState,
    nets: &'a [i32],
    delivered: &'a [u32],
    lifts: &'a [u32],
    charges: &'a [i64],
    issues: &'a [u8],
    froms: &'a [u8],
    tos: &'a [u8],
    lots: &'a [u32],
    days: &'a [u16],
    issue: u32,
    k: u32,
    answer: &mut [u32; 3],
) -> u32
    ensures { UnitIs (day_unit_by w state.phase (book_at state (shared_columns nets delivered lifts charges issues froms tos lots days)) issue k) result answer.new }
{
    let columns = SharedColumns {
        nets,
        delivered,
        lifts,
        charges,
        issues,
        froms,
        tos,
        lots,
        days,
    };
    callers::day_unit_as(w, state, columns, issue, k, answer)
}

// What is told of unit k of an issue, for a caller: the operator's alone.
#[unsafe(no_mangle)]
pub extern "C" fn day_status_as<'a>(
    w: Caller,
    state: DayState,
    nets: &'a [i32],
    delivered: &'a [u32],
    lifts: &'a [u32],
    charges: &'a [i64],
    issues: &'a [u8],
    froms: &'a [u8],
    tos: &'a [u8],
    lots: &'a [u32],
    days: &'a [u16],
    issue: u32,
    k: u32,
    answer: &mut [u32; 2],
) -> u32
    ensures { StatusIs (day_status_by w state.phase (book_at state (shared_columns nets delivered lifts charges issues froms tos lots days)) issue k) result answer.new }
{
    let columns = SharedColumns {
        nets,
        delivered,
        lifts,
        charges,
        issues,
        froms,
        tos,
        lots,
        days,
    };
    callers::day_status_as(w, state, columns, issue, k, answer)
}

// Asks for a unit of an issue, for a caller: the operator's alone.
#[unsafe(no_mangle)]
pub extern "C" fn day_ask_as<'a>(
    w: Caller,
    state: DayState,
    nets: &'a [i32],
    delivered: &'a [u32],
    lifts: &'a [u32],
    charges: &'a [i64],
    issues: &'a [u8],
    froms: &'a [u8],
    tos: &'a [u8],
    lots: &'a [u32],
    days: &'a [u16],
    issue: u32,
    unit: u32,
    ticket: &mut [u32; 6],
) -> u32
    ensures { AskIs (day_asked_by w state.phase (book_at state (shared_columns nets delivered lifts charges issues froms tos lots days)) issue unit) result ticket.new }
{
    let columns = SharedColumns {
        nets,
        delivered,
        lifts,
        charges,
        issues,
        froms,
        tos,
        lots,
        days,
    };
    callers::day_ask_as(w, state, columns, issue, unit, ticket)
}

// Commits a ticket, for a caller: the operator's alone.
#[unsafe(no_mangle)]
pub extern "C" fn day_commit_as<'a>(
    w: Caller,
    ticket: &[u32; 6],
    state: DayState,
    nets: &'a [i32],
    delivered: &'a [u32],
    lifts: &mut [u32],
    charges: &'a [i64],
    issues: &'a [u8],
    froms: &'a [u8],
    tos: &'a [u8],
    lots: &'a [u32],
    days: &'a [u16],
    out: &mut [u32],
    count: &mut usize,
) -> u32
    ensures { DayCommittedBy w state.phase (book_at state (lifting_columns nets delivered lifts charges issues froms tos lots days)) ticket.now out lifts result count }
{
    let columns = OtherColumns {
        nets,
        delivered,
        charges,
        issues,
        froms,
        tos,
        lots,
        days,
    };
    callers::day_commit_as(w, ticket, state, columns, lifts, out, count)
}

// How a simulated desk goes, for a caller: the operator's alone.
#[unsafe(no_mangle)]
pub extern "C" fn day_simulate_as<'a>(
    w: Caller,
    state: DayState,
    nets: &'a [i32],
    delivered: &'a [u32],
    lifts: &'a [u32],
    charges: &'a [i64],
    issues: &'a [u8],
    froms: &'a [u8],
    tos: &'a [u8],
    lots: &'a [u32],
    days: &'a [u16],
    settles: &'a [u32],
    inventories: &'a [u32],
    size: u32,
    deliveries: &mut u64,
    rounds: &mut u64,
    owed: &mut [u32; ISSUE_COUNT],
) -> u32
    ensures { tried result deliveries.new rounds.new owed.new ≡ day_simulation_by w state.phase (book_at state (shared_columns nets delivered lifts charges issues froms tos lots days)) settles.now inventories.now size }
{
    let columns = SharedColumns {
        nets,
        delivered,
        lifts,
        charges,
        issues,
        froms,
        tos,
        lots,
        days,
    };
    callers::day_simulate_as(
        w,
        state,
        columns,
        settles,
        inventories,
        size,
        deliveries,
        rounds,
        owed,
    )
}

// Reads an account for a caller: its net in the issue, its charge and its k-th entry there at either end.
#[unsafe(no_mangle)]
pub extern "C" fn day_look<'a>(
    w: Caller,
    state: DayState,
    nets: &'a [i32],
    delivered: &'a [u32],
    lifts: &'a [u32],
    charges: &'a [i64],
    issues: &'a [u8],
    froms: &'a [u8],
    tos: &'a [u8],
    lots: &'a [u32],
    days: &'a [u16],
    issue: u32,
    account: u32,
    k: u32,
) -> DaySeen
    ensures { result ≡ seen_in (day_look w state.phase (book_at state (shared_columns nets delivered lifts charges issues froms tos lots days)) issue account k) }
{
    let columns = SharedColumns {
        nets,
        delivered,
        lifts,
        charges,
        issues,
        froms,
        tos,
        lots,
        days,
    };
    callers::day_look(w, state, columns, issue, account, k)
}
