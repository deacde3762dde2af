// The settlement-day book for hosts in C, in plain numbers and lent columns. Each call is that of the library `host`, with
// the same contract; what the state and the nine columns are stands there. C lends nine columns, each a pointer and a length
// (size_t), in this order, so they are parameters here; the quotes and an output are lent in the same way.
//
// uint32_t day_sound(struct day_state,
//     const int32_t *nets, size_t, const uint32_t *delivered, size_t, const uint32_t *lifts, size_t,
//     const int64_t *charges, size_t,
//     const uint8_t *issues, size_t, const uint8_t *froms, size_t, const uint8_t *tos, size_t,
//     const uint32_t *lots, size_t, const uint16_t *days, size_t);
//   1 where the book is sound, else 0.
//
// uint32_t day_unit(struct day_state, <the nine columns as above>, uint32_t issue, uint32_t k, uint32_t answer[3]);
//   The k-th unit of an issue, k from 0. Refused by 2 and 4. The answer is 1, account, lots; or 0, 0, 0
//   where there is no such unit, and on a refusal.
//
// uint32_t day_status(struct day_state, <the nine columns>, uint32_t issue, uint32_t k, uint32_t answer[2]);
//   Why unit k of an issue, k from 0, has not come. Refused by 2, 3 (Taking), 4 and 16. The answer is the case
//   and its lots: 1 handed, 2 waiting for so many lots, 3 partly failed with so many lots lacking, 4 wholly
//   failed; lots are 0 for 1 and 4, and both are 0 on a refusal.
//
// uint32_t day_simulate(struct day_state, <the nine columns>, <settlement accounts>, <inventories>, each with its
//     length, uint32_t size, uint64_t *deliveries, uint64_t *rounds, uint32_t owed[16]);
//   How a desk goes whose 64 netting accounts share 16 settlement accounts, with units of so many lots. Of the
//   book, which is only read, its nets count. The settlement account of netting account a stands at place a; the
//   opening inventory of settlement account s in issue i at i * 16 + s. Refused by 2, by 5 (other than 64
//   settlement accounts, or one above 15) and by 7 (a size that is not 1 to 100,000, other than 256
//   inventories, or one above 20,000,000). The answer is the deliveries made, the rounds, the last one
//   included, and the lots still owed of each issue; all of them are 0 on a refusal.
//
// struct day_turned day_call(uint32_t kind, uint32_t a, uint32_t b, uint32_t c, uint32_t d,
//     const uint32_t *quotes, size_t, struct day_state,
//     int32_t *nets, size_t, uint32_t *delivered, size_t, uint32_t *lifts, size_t, int64_t *charges, size_t,
//     uint8_t *issues, size_t, uint8_t *froms, size_t, uint8_t *tos, size_t,
//     uint32_t *lots, size_t, uint16_t *days, size_t, uint32_t *out, size_t);
//   struct day_turned { uint32_t refusal; size_t count; uint64_t cancelled; struct day_state state; };
//   The call of an instruction (its kind and numbers are in `desk`), made in place on any book; the state after it
//   comes back by value. A kind that is none is refused by 14; then the desk's questions are put in their order.
//   Only deliver, cutoff and resolve use the output, and only roll the quotes: for the others any slice will do,
//   an empty one too. count is that of the records written (for pair-off, of the steps), cancelled pair-off's
//   lots; both are 0 on a refusal, and the state is as it came.
//
// uint32_t day_ask(struct day_state, <the nine columns>, uint32_t issue, uint32_t unit, uint32_t ticket[6]);
//   The ticket for a lift of a unit: issue, unit, account, lots, day, count; six times 0 on a refusal.
//
// uint32_t day_commit(const uint32_t ticket[6], struct day_state, <the nine columns, lifts to be written>,
//     uint32_t *out, size_t, size_t *count);
//   The lift of a ticket; count is that of the records written, 0 on a refusal.
#![tactic(auto)]

ghost use Rattle.std.specs.Prelude.{◌≡◌};
ghost use Rattle.book.specs.States.{columns, shared_columns, lifting_columns};
ghost use Rattle.desks.specs.Simulation.{tried};
ghost use Rattle.desk.specs.Fields.{instruction_of};
ghost use Rattle.host.specs.Calls.{DayCalled};
ghost use Rattle.host.specs.States.{book_at};
ghost use Rattle.host.specs.Lifts.{AskIs, day_asked, DayCommitted};
ghost use Rattle.host.specs.Questions.{sound_number, UnitIs, day_unit, StatusIs, day_status, day_simulation};

use columns::{LentColumns, SharedColumns};
use host::lifts::OtherColumns;
use host::{DayState, DayTurned, calls, lifts, questions};
use rules::ISSUE_COUNT;

// The call of an instruction, with roll's quotes and an output beside it.
#[unsafe(no_mangle)]
pub extern "C" fn day_call(
    kind: u32,
    a: u32,
    b: u32,
    c: u32,
    d: u32,
    quotes: &[u32],
    state: DayState,
    nets: &mut [i32],
    delivered: &mut [u32],
    lifts: &mut [u32],
    charges: &mut [i64],
    issues: &mut [u8],
    froms: &mut [u8],
    tos: &mut [u8],
    lots: &mut [u32],
    days: &mut [u16],
    out: &mut [u32],
) -> DayTurned
    ensures { DayCalled kind (instruction_of kind a b c d) quotes out state result (columns nets delivered lifts charges issues froms tos lots days) }
{
    let mut columns = LentColumns {
        nets,
        delivered,
        lifts,
        charges,
        issues,
        froms,
        tos,
        lots,
        days,
    };
    calls::day_call(kind, a, b, c, d, quotes, state, &mut columns, out)
}

// Asks for a unit of an issue.
#[unsafe(no_mangle)]
pub extern "C" fn day_ask<'a>(
    state: DayState,
    nets: &'a [i32],
    delivered: &'a [u32],
    lifts: &'a [u32],
    charges: &'a [i64],
    issues: &'a [u8],
    froms: &'a [u8],
    tos: &'a [u8],
    lots: &'a [u32],
    days: &'a [u16],
    issue: u32,
    unit: u32,
    ticket: &mut [u32; 6],
) -> u32
    ensures { AskIs (day_asked state.phase (book_at state (shared_columns nets delivered lifts charges issues froms tos lots days)) issue unit) result ticket.new }
{
    let columns = SharedColumns {
        nets,
        delivered,
        lifts,
        charges,
        issues,
        froms,
        tos,
        lots,
        days,
    };
    lifts::day_ask(state, columns, issue, unit, ticket)
}

// Commits a ticket: of the book only the lifts change, and the records go to the output.
#[unsafe(no_mangle)]
pub extern "C" fn day_commit<'a>(
    ticket: &[u32; 6],
    state: DayState,
    nets: &'a [i32],
    delivered: &'a [u32],
    lifts: &mut [u32],
    charges: &'a [i64],
    issues: &'a [u8],
    froms: &'a [u8],
    tos: &'a [u8],
    lots: &'a [u32],
    days: &'a [u16],
    out: &mut [u32],
    count: &mut usize,
) -> u32
    ensures { DayCommitted state.phase (book_at state (lifting_columns nets delivered lifts charges issues froms tos lots days)) ticket.now out lifts result count }
{
    let columns = OtherColumns {
        nets,
        delivered,
        charges,
        issues,
        froms,
        tos,
        lots,
        days,
    };
    lifts::day_commit(ticket, state, columns, lifts, out, count)
}

// Is the book sound? 1 sound, 0 not.
#[unsafe(no_mangle)]
pub extern "C" fn day_sound<'a>(
    state: DayState,
    nets: &'a [i32],
    delivered: &'a [u32],
    lifts: &'a [u32],
    charges: &'a [i64],
    issues: &'a [u8],
    froms: &'a [u8],
    tos: &'a [u8],
    lots: &'a [u32],
    days: &'a [u16],
) -> u32
    ensures { result ≡ sound_number state.phase (book_at state (shared_columns nets delivered lifts charges issues froms tos lots days)) }
{
    let columns = SharedColumns {
        nets,
        delivered,
        lifts,
        charges,
        issues,
        froms,
        tos,
        lots,
        days,
    };
    questions::day_sound(state, columns)
}

// The k-th unit of an issue, k from 0.
#[unsafe(no_mangle)]
pub extern "C" fn day_unit<'a>(
    state: DayState,
    nets: &'a [i32],
    delivered: &'a [u32],
    lifts: &'a [u32],
    charges: &'a [i64],
    issues: &'a [u8],
    froms: &'a [u8],
    tos: &'a [u8],
    lots: &'a [u32],
    days: &'a [u16],
    issue: u32,
    k: u32,
    answer: &mut [u32; 3],
) -> u32
    ensures { UnitIs (day_unit state.phase (book_at state (shared_columns nets delivered lifts charges issues froms tos lots days)) issue k) result answer.new }
{
    let columns = SharedColumns {
        nets,
        delivered,
        lifts,
        charges,
        issues,
        froms,
        tos,
        lots,
        days,
    };
    questions::day_unit(state, columns, issue, k, answer)
}

// What is told of unit k of an issue, k from 0.
#[unsafe(no_mangle)]
pub extern "C" fn day_status<'a>(
    state: DayState,
    nets: &'a [i32],
    delivered: &'a [u32],
    lifts: &'a [u32],
    charges: &'a [i64],
    issues: &'a [u8],
    froms: &'a [u8],
    tos: &'a [u8],
    lots: &'a [u32],
    days: &'a [u16],
    issue: u32,
    k: u32,
    answer: &mut [u32; 2],
) -> u32
    ensures { StatusIs (day_status state.phase (book_at state (shared_columns nets delivered lifts charges issues froms tos lots days)) issue k) result answer.new }
{
    let columns = SharedColumns {
        nets,
        delivered,
        lifts,
        charges,
        issues,
        froms,
        tos,
        lots,
        days,
    };
    questions::day_status(state, columns, issue, k, answer)
}

// How a simulated desk goes with units of this size: the refusal's number, 0 where it is done.
#[unsafe(no_mangle)]
pub extern "C" fn day_simulate<'a>(
    state: DayState,
    nets: &'a [i32],
    delivered: &'a [u32],
    lifts: &'a [u32],
    charges: &'a [i64],
    issues: &'a [u8],
    froms: &'a [u8],
    tos: &'a [u8],
    lots: &'a [u32],
    days: &'a [u16],
    settles: &'a [u32],
    inventories: &'a [u32],
    size: u32,
    deliveries: &mut u64,
    rounds: &mut u64,
    owed: &mut [u32; ISSUE_COUNT],
) -> u32
    ensures { tried result deliveries.new rounds.new owed.new ≡ day_simulation state.phase (book_at state (shared_columns nets delivered lifts charges issues froms tos lots days)) settles.now inventories.now size }
{
    let columns = SharedColumns {
        nets,
        delivered,
        lifts,
        charges,
        issues,
        froms,
        tos,
        lots,
        days,
    };
    questions::day_simulate(
        state,
        columns,
        settles,
        inventories,
        size,
        deliveries,
        rounds,
        owed,
    )
}
