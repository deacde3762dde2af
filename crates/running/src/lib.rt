// An instruction of a run, answered in place on the columns of a sound book by the call that it is.
#![tactic(auto)]

ghost use Rattle.std.specs.Prelude.{◌≡◌, false};
ghost use Rattle.rules.specs.Book.{in_force};
ghost use Rattle.rules.specs.Calls.{HasRoom, Trade, Deliver, Resolve, PairOff, Cutoff, Mark};
ghost use Rattle.rules.specs.Run.{call_of};
ghost use Rattle.columns.specs.Books.{IsSound, IsReady, SameColumns};
ghost use Rattle.answers.specs.Turns.{Makes, MakesAlone, Answered};
ghost use Rattle.delivery.specs.Deliver.{KeepsEach};

use answers::Turn;
use columns::LentColumns;
use ledger::Ledger;
use rules::{Instruction, Refusal, State};
use waiting::Kept;

// Each call on the columns of a sound book, but roll, which is lent them all: of all columns it is lent those that it
// reads or changes, and they stay the same ones. A column that is only read is lent by `&mut *` too: beside a lent field the check knows no
// `&*` of another. The ledger's five stand in each call that is lent them: beside them it is lent others of the nine, and a
// function that hands the five out holds all nine lent.
pub fn trade(
    s: State,
    columns: &mut LentColumns,
    i: u32,
    f: u32,
    t: u32,
    x: u32,
) -> Result<Turn, Refusal>
    requires { IsSound s columns.old }
    ensures made { MakesAlone s (Trade i f t x) result columns.old columns.new }
    ensures same { SameColumns columns.old columns.new }
{
    trading::trade(s, &mut *columns.nets, i, f, t, x)
}

fn deliver(
    s: State,
    columns: &mut LentColumns,
    i: u32,
    a: u32,
    x: u32,
    out: &mut [u32],
) -> Result<Turn, Refusal>
    requires { IsReady s columns.old out.old }
    ensures made { Makes s (Deliver i a x) result columns.old columns.new out.old out.new }
    ensures same { SameColumns columns.old columns.new }
{
    delivery::deliver(
        s,
        &mut *columns.nets,
        &mut *columns.delivered,
        &mut *columns.lifts,
        i,
        a,
        x,
        out,
    )
}

// A delivery on a day of the old order: the units come from what is kept of the issue, and what waits then is kept for the
// next one.
pub fn deliver_kept(
    s: State,
    columns: &mut LentColumns,
    i: u32,
    a: u32,
    x: u32,
    kept: &mut [Kept],
    out: &mut [u32],
) -> Result<Turn, Refusal>
    requires { IsReady s columns.old out.old × KeepsEach columns.old.nets.now columns.old.delivered.now columns.old.lifts.now kept.old × (in_force s.turn s.day ≡ false) }
    ensures made { Makes s (Deliver i a x) result columns.old columns.new out.old out.new }
    ensures same { SameColumns columns.old columns.new }
    ensures kept { KeepsEach columns.new.nets.now columns.new.delivered.now columns.new.lifts.now kept.new }
{
    delivery::deliver_kept(
        s,
        &mut *columns.nets,
        &mut *columns.delivered,
        &mut *columns.lifts,
        i,
        a,
        x,
        kept,
        out,
    )
}

fn resolve(
    s: State,
    columns: &mut LentColumns,
    i: u32,
    a: u32,
    x: u32,
    out: &mut [u32],
) -> Result<Turn, Refusal>
    requires { IsReady s columns.old out.old }
    ensures made { Makes s (Resolve i a x) result columns.old columns.new out.old out.new }
    ensures same { SameColumns columns.old columns.new }
{
    let mut ledger = Ledger {
        issues: &mut *columns.issues,
        froms: &mut *columns.froms,
        tos: &mut *columns.tos,
        lots: &mut *columns.lots,
        days: &mut *columns.days,
    };
    resolution::resolve(s, &mut ledger, i, a, x, out)
}

fn pair_off(s: State, columns: &mut LentColumns, i: u32, a: u32) -> Result<Turn, Refusal>
    requires { IsSound s columns.old }
    ensures made { MakesAlone s (PairOff i a) result columns.old columns.new }
    ensures same { SameColumns columns.old columns.new }
{
    let mut ledger = Ledger {
        issues: &mut *columns.issues,
        froms: &mut *columns.froms,
        tos: &mut *columns.tos,
        lots: &mut *columns.lots,
        days: &mut *columns.days,
    };
    pairing::pair_off(s, &mut ledger, i, a)
}

fn cutoff(s: State, columns: &mut LentColumns, out: &mut [u32]) -> Result<Turn, Refusal>
    requires { IsReady s columns.old out.old }
    ensures made { Makes s Cutoff result columns.old columns.new out.old out.new }
    ensures same { SameColumns columns.old columns.new }
{
    let mut ledger = Ledger {
        issues: &mut *columns.issues,
        froms: &mut *columns.froms,
        tos: &mut *columns.tos,
        lots: &mut *columns.lots,
        days: &mut *columns.days,
    };
    cutoff::cutoff(
        s,
        &mut *columns.nets,
        &mut *columns.delivered,
        &mut *columns.lifts,
        &mut ledger,
        out,
    )
}

fn mark(s: State, columns: &mut LentColumns, i: u32, m: u32) -> Result<Turn, Refusal>
    requires { IsSound s columns.old }
    ensures made { MakesAlone s (Mark i m) result columns.old columns.new }
    ensures same { SameColumns columns.old columns.new }
{
    settings::mark(s, &mut *columns.nets, &mut *columns.issues, i, m)
}

// The answer to an instruction of a sound book in its columns: number, count, lots cancelled, book and
// output are those of the call. Roll's quotes stand beside it.
pub fn answer(
    x: Instruction,
    quotes: &[u32],
    s: State,
    columns: &mut LentColumns,
    out: &mut [u32],
) -> Result<Turn, Refusal>
    requires { IsSound s columns.old × HasRoom (call_of x quotes.now) out.old }
    ensures answered { Answered x quotes.now s result columns.old columns.new out.old out.new }
    ensures same { SameColumns columns.old columns.new }
{
    match x {
        Instruction::Trade(i, f, t, x) => trade(s, columns, i, f, t, x),
        Instruction::Deliver(i, a, x) => deliver(s, columns, i, a, x, out),
        Instruction::Resolve(i, a, x) => resolve(s, columns, i, a, x, out),
        Instruction::PairOff(i, a) => pair_off(s, columns, i, a),
        Instruction::Close => trading::close(s),
        Instruction::Cutoff => cutoff(s, columns, out),
        Instruction::Roll(term, rate) => rolling::roll(s, columns, term, rate, quotes),
        Instruction::Mark(i, m) => mark(s, columns, i, m),
        Instruction::Turn(d) => settings::turn(s, d),
    }
}
