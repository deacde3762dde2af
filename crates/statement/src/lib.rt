// Fails statement over a span of a tape, for hosts in C and Rust: an account's record in an issue, from the tape's
// first 4,096 instructions, or fewer, run in place on a fresh book.
#![tactic(auto)]

ghost use Rattle.std.specs.Prelude.{◌≡◌};
ghost use Rattle.rules.specs.Refusals.{number_in};
ghost use Rattle.columns.specs.Books.{lent_book, IsReady, SameColumns};
ghost use Rattle.instructions.specs.Answering.{Begins};
ghost use Rattle.spans.specs.Span.{turns_from};
ghost use Rattle.spans.specs.Statement.{most_span, statement_over, statement_on, stated, statement as statementAnswer};
ghost use Rattle.counting.specs.Counting.{CanAdd};
ghost use Rattle.statement.specs.Counting.{Within, Stepped, numbers_in};

use columns::LentColumns;
use rules::{
    ACCOUNT_COUNT, CELL_COUNT, ISSUE_COUNT, Instruction, LAST_ACCOUNT, LAST_ISSUE, LIFT_CELLS,
    MOST_ENTRIES, OUTPUT_WORDS, Phase, Refusal, State,
};
use spans::Statement;

// a span has at most so many instructions
const MOST_SPAN: usize = 4096;

// After an instruction: the statement so far, and the state.
#[derive(Clone, Copy, Drop)]
struct Step {
    statement: Statement,
    state: State,
}

// The instruction that the words begin with, answered in place, and counted.
fn turn(
    words: &[u32],
    x: Instruction,
    issue: u32,
    account: u32,
    c: Statement,
    s: State,
    columns: &mut LentColumns,
    out: &mut [u32],
) -> Step
    requires { Begins words.now x × IsReady s columns.old out.old × Within issue account × CanAdd c }
    ensures done { Stepped words.now x issue account c (lent_book s columns.old) result (lent_book result.state columns.new) }
    ensures same { SameColumns columns.old columns.new }
{
    let cell = issue as usize * ACCOUNT_COUNT + account as usize;
    let net = columns.nets[cell];
    let given = columns.delivered[cell];
    let answer = instructions::answer(words, x, s, columns, out);
    let statement = counting::added(c, x, answer, net, given, issue, account);
    let state = instructions::state_after(s, answer);
    Step { statement, state }
}

// The statement of a span, run from the book in its columns on. A reader's refusal ends it there.
fn span(
    words: &[u32],
    issue: u32,
    account: u32,
    s: State,
    columns: &mut LentColumns,
    out: &mut [u32],
) -> Statement
    requires { IsReady s columns.old out.old × Within issue account }
    ensures { result ≡ statement_over issue account (turns_from most_span (lent_book s columns.old) words.now) }
{
    let mut c = Statement {
        due: 0,
        delivered: 0,
        failed: 0,
        resolved: 0,
    };
    let mut state = s;
    let mut at: usize = 0;
    // the place counts by hand: it goes on by as many words as an instruction has, and the instructions are at most so many
    for _turn in 0..MOST_SPAN {
        let Ok((x, n)) = tape::read(&words[at..]) else {
            return c;
        };
        let t = turn(&words[at..], x, issue, account, c, state, columns, out);
        c = t.statement;
        state = t.state;
        at += n;
    }
    c
}

// The statement of a tape's span, run on a fresh book.
fn on_fresh(words: &[u32], issue: u32, account: u32) -> Statement
    requires { Within issue account }
    ensures { result ≡ statement_on words.now issue account }
{
    let s = book::state_of(0, Phase::Taking, 0, 0, [0; ISSUE_COUNT]);
    let mut nets = [0i32; CELL_COUNT];
    let mut delivered = [0u32; CELL_COUNT];
    let mut lifts = [0u32; LIFT_CELLS];
    let mut charges = [0i64; ACCOUNT_COUNT];
    let mut issues = [0u8; MOST_ENTRIES];
    let mut froms = [0u8; MOST_ENTRIES];
    let mut tos = [0u8; MOST_ENTRIES];
    let mut lots = [0u32; MOST_ENTRIES];
    let mut days = [0u16; MOST_ENTRIES];
    let mut out = [0u32; OUTPUT_WORDS];
    let mut columns = LentColumns {
        nets: &mut nets,
        delivered: &mut delivered,
        lifts: &mut lifts,
        charges: &mut charges,
        issues: &mut issues,
        froms: &mut froms,
        tos: &mut tos,
        lots: &mut lots,
        days: &mut days,
    };
    span(words, issue, account, s, &mut columns, &mut out)
}

// An account's fails statement in an issue, from a tape's words.
pub fn day_statement(words: &[u32], issue: u32, account: u32) -> Result<Statement, Refusal>
    ensures { stated (number_in result) (numbers_in result) ≡ statementAnswer words.now issue account }
{
    if LAST_ISSUE < issue {
        return Err(Refusal::Issue);
    }
    if LAST_ACCOUNT < account {
        return Err(Refusal::Account);
    }
    Ok(on_fresh(words, issue, account))
}
