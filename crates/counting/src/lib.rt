// What an instruction adds to an account's fails statement in an issue, from numbers at hand.
#![tactic(auto)]

ghost use Rattle.std.specs.Prelude.{◌≡◌, true, ◌≤◌};
ghost use Rattle.rules.specs.Measures.{owed_of};
ghost use Rattle.rules.specs.Refusals.{number_in};
ghost use Rattle.counting.specs.Counting.{CanAdd, Grown, cut_in, resolved_in, added_in};

use rules::{Instruction, Refusal};
use spans::Statement;

// What an accepted cutoff adds: what the account owes, what it delivered, and the rest, which it fails.
fn cut(c: Statement, net: i32, given: u32) -> Statement
    requires { CanAdd c × (given ≤ owed_of net) }
    ensures { (result ≡ cut_in c net given) × Grown c result }
{
    let owed = book::owed(net);
    Statement {
        due: c.due + owed as u64,
        delivered: c.delivered + given as u64,
        failed: c.failed + (owed - given) as u64,
        ..c
    }
}

// What an accepted resolve of the account in the issue adds: its lots.
fn resolved(c: Statement, lots: u32) -> Statement
    requires { CanAdd c }
    ensures { (result ≡ resolved_in c true lots) × Grown c result }
{
    Statement {
        resolved: c.resolved + lots as u64,
        ..c
    }
}

// A statement with what an instruction adds, from its answer and from the account's net and delivered lots
// before it. A refused one adds nothing.
pub fn added<T: Drop>(
    c: Statement,
    x: Instruction,
    answer: Result<T, Refusal>,
    net: i32,
    given: u32,
    issue: u32,
    account: u32,
) -> Statement
    requires { CanAdd c × (given ≤ owed_of net) }
    ensures { (result ≡ added_in c x (number_in answer) net given issue account) × Grown c result }
{
    if answer.is_err() {
        return c;
    }
    match x {
        Instruction::Trade(_, _, _, _) => c,
        Instruction::Deliver(_, _, _) => c,
        Instruction::Resolve(i, a, lots) => {
            if i == issue && a == account {
                resolved(c, lots)
            } else {
                c
            }
        }
        Instruction::PairOff(_, _) => c,
        Instruction::Close => c,
        Instruction::Cutoff => cut(c, net, given),
        Instruction::Roll(_, _) => c,
        Instruction::Mark(_, _) => c,
        Instruction::Turn(_) => c,
    }
}
