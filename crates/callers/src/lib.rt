// The calls and the questions on a host's book with their caller, by value: any numbers, any columns. A caller that has the
// right is answered as without one; another is refused by 27, or by what is asked before it.
// A function answers as the C interface has it, a refusal's number and what it writes at references: the claims of every
// host are of these.
#![tactic(auto)]

ghost use Rattle.std.specs.Prelude.{◌≡◌, []};
ghost use Rattle.rules.specs.Questions.{first_no};
ghost use Rattle.rules.specs.Refusals.{number_of, number_in};
ghost use Rattle.rules.specs.Access.{seen_answer};
ghost use Rattle.rules.specs.Run.{call_of};
ghost use Rattle.columns.specs.Books.{shared_book, SameColumns};
ghost use Rattle.desks.specs.Simulation.{tried};
ghost use Rattle.desk.specs.Fields.{instruction_of};
ghost use Rattle.host.specs.States.{state_in};
ghost use Rattle.host.specs.Questions.{UnitIs, StatusIs};
ghost use Rattle.host.specs.Lifts.{lifting_book, AskIs};
ghost use Rattle.callers.specs.Callers.{asks_at, unless_unsound, CalledBy, CommittedBy, day_asked_by, day_unit_by, day_status_by, day_simulation_by, early_number, day_look, seen_in};

use columns::{LentColumns, SharedColumns, ledger_of, shared};
use desk::fields::instruction_at;
use host::calls::{instruction_call, output_asks, refused};
use host::lifts::{OtherColumns, beside, day_ask, day_commit, ticket_out};
use host::questions::{day_simulate, day_status, day_unit, plain, told};
use host::{DayState, DayTurned, held, phase_of, sound_at, state_in};
use rules::{Caller, Entry, ISSUE_COUNT, Instruction, OUTPUT_WORDS, Refusal, Seen};

// What is seen of an account: the refusal's number (0: done); 1 where there is an entry, else 0; the account's net in the
// issue, its charge, and the entry, 0 throughout where there is none. It is returned by value to C, so that it is no Result.
#[repr(C)]
#[derive(Clone, Copy, Drop)]
pub struct DaySeen {
    pub refusal: u32,
    pub some: u32,
    pub net: i32,
    pub charge: i64,
    pub entry: Entry,
}

// The refusal of an instruction whose caller has not the right: 1 and 2, then what it asks before 27, then 27.
fn no_right(x: Instruction, state: DayState, columns: SharedColumns, out: &[u32]) -> Refusal
    ensures { number_of result ≡ first_no (asks_at state.phase (shared_book (state_in state) columns.entry) (call_of x []) out.now) }
{
    if let Err(r) = output_asks(x, out) {
        return r;
    }
    match held(state, columns) {
        Ok(s) => access::refusal(x, s),
        Err(r) => r,
    }
}

// A refusal on a sound book, 2 on any other.
fn unless_unsound(r: Refusal, state: DayState, columns: SharedColumns) -> Refusal
    ensures { number_of result ≡ unless_unsound (number_of r) state.phase (shared_book (state_in state) columns.entry) }
{
    match held(state, columns) {
        Ok(_) => r,
        Err(unsound) => unsound,
    }
}

// The call of an instruction by a caller, with roll's quotes and an output beside it. The answer is the house's: of it a
// participant may be told the refusal's number alone.
pub fn day_call_as(
    w: Caller,
    kind: u32,
    a: u32,
    b: u32,
    c: u32,
    d: u32,
    quotes: &[u32],
    state: DayState,
    columns: &mut LentColumns,
    out: &mut [u32],
) -> DayTurned
    ensures called { CalledBy w kind (instruction_of kind a b c d) quotes.now state result columns.old columns.new out.old out.new }
    ensures same { SameColumns columns.old columns.new }
{
    let Some(x) = instruction_at(kind, a, b, c, d) else {
        return refused(Refusal::Word.number(), state);
    };
    if !access::has_right(w, x) {
        let no = no_right(x, state, shared(columns), out);
        return refused(no.number(), state);
    }
    instruction_call(x, quotes, state, columns, out)
}

// The k-th unit of an issue, for a caller: the operator's alone.
pub fn day_unit_as(
    w: Caller,
    state: DayState,
    columns: SharedColumns,
    issue: u32,
    k: u32,
    answer: &mut [u32; 3],
) -> u32
    ensures { UnitIs (day_unit_by w state.phase (shared_book (state_in state) columns.entry) issue k) result answer.new }
{
    if access::is_operator(w) {
        return day_unit(state, columns, issue, k, answer);
    }
    let no = unless_unsound(access::refuse(true, issue, 0, 0), state, columns);
    told(Err(no), answer)
}

// What is told of unit k of an issue, for a caller: the operator's alone.
pub fn day_status_as(
    w: Caller,
    state: DayState,
    columns: SharedColumns,
    issue: u32,
    k: u32,
    answer: &mut [u32; 2],
) -> u32
    ensures { StatusIs (day_status_by w state.phase (shared_book (state_in state) columns.entry) issue k) result answer.new }
{
    if access::is_operator(w) {
        return day_status(state, columns, issue, k, answer);
    }
    let taking = book::taking(phase_of(state.phase));
    let no = unless_unsound(access::refuse(!taking, issue, 0, 0), state, columns);
    plain(Err(no), answer)
}

// Asks for a unit of an issue, for a caller: the operator's alone. As `day_status_as` but for what is asked and written:
// one function of both would take the question as a closure, which is no plainer.
pub fn day_ask_as(
    w: Caller,
    state: DayState,
    columns: SharedColumns,
    issue: u32,
    unit: u32,
    ticket: &mut [u32; 6],
) -> u32
    ensures { AskIs (day_asked_by w state.phase (shared_book (state_in state) columns.entry) issue unit) result ticket.new }
{
    if access::is_operator(w) {
        return day_ask(state, columns, issue, unit, ticket);
    }
    let settling = book::settling(phase_of(state.phase));
    let no = unless_unsound(access::refuse(settling, issue, 0, 0), state, columns);
    ticket_out(Err(no), ticket)
}

// Commits a ticket, for a caller: the operator's alone.
pub fn day_commit_as(
    w: Caller,
    ticket: &[u32; 6],
    state: DayState,
    columns: OtherColumns,
    lifts: &mut [u32],
    out: &mut [u32],
    count: &mut usize,
) -> u32
    ensures { CommittedBy w state.phase (lifting_book (state_in state) columns.entry lifts.old) ticket.now out.old lifts.new out.new result count.new }
{
    if access::is_operator(w) {
        return day_commit(ticket, state, columns, lifts, out, count);
    }
    *count = 0;
    if out.len() < OUTPUT_WORDS {
        return Refusal::Output.number();
    }
    let settling = book::settling(phase_of(state.phase));
    let no = unless_unsound(
        access::refuse(settling, ticket[0], 0, 0),
        state,
        beside(columns, lifts),
    );
    no.number()
}

// What is asked of a simulation before 27, and then 27.
fn early(asked: Result<(), Refusal>) -> Refusal
    ensures { number_of result ≡ early_number (number_in asked) }
{
    match asked {
        Err(Refusal::Unsound) => Refusal::Unsound,
        Err(Refusal::Account) => Refusal::Account,
        _ => Refusal::Right,
    }
}

// How a simulated desk goes, for a caller: the operator's alone.
pub fn day_simulate_as(
    w: Caller,
    state: DayState,
    columns: SharedColumns,
    settles: &[u32],
    inventories: &[u32],
    size: u32,
    deliveries: &mut u64,
    rounds: &mut u64,
    owed: &mut [u32; ISSUE_COUNT],
) -> u32
    ensures { tried result deliveries.new rounds.new owed.new ≡ day_simulation_by w state.phase (shared_book (state_in state) columns.entry) settles.now inventories.now size }
{
    if access::is_operator(w) {
        return day_simulate(
            state,
            columns,
            settles,
            inventories,
            size,
            deliveries,
            rounds,
            owed,
        );
    }
    let s = state_in(state);
    let good = sound_at(state.phase, s, columns);
    *deliveries = 0;
    *rounds = 0;
    *owed = [0; ISSUE_COUNT];
    let no = early(sizes::asks::simulation_asks(good, settles, inventories, size));
    no.number()
}

// What is seen of an account, in plain numbers.
fn seen_out(found: Result<Seen, Refusal>) -> DaySeen
    ensures { result ≡ seen_in (seen_answer found) }
{
    let none = Entry {
        issue: 0,
        from: 0,
        to: 0,
        lots: 0,
        day: 0,
    };
    match found {
        Ok(seen) => DaySeen {
            refusal: 0,
            some: seen.entry.is_some() as u32,
            net: seen.net,
            charge: seen.charge,
            entry: seen.entry.unwrap_or(none),
        },
        Err(r) => DaySeen {
            refusal: r.number(),
            some: 0,
            net: 0,
            charge: 0,
            entry: none,
        },
    }
}

// Reads an account for a caller: its net in the issue, its charge and its k-th entry there at either end.
pub fn day_look(
    w: Caller,
    state: DayState,
    columns: SharedColumns,
    issue: u32,
    account: u32,
    k: u32,
) -> DaySeen
    ensures { result ≡ seen_in (day_look w state.phase (shared_book (state_in state) columns.entry) issue account k) }
{
    let found = match held(state, columns) {
        Ok(s) => access::look_in(
            w,
            s.entries,
            columns.nets,
            columns.charges,
            ledger_of(columns),
            issue,
            account,
            k,
        ),
        Err(r) => Err(r),
    };
    seen_out(found)
}
