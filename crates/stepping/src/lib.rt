// Pair-off's steps: first against first, in one pass.
#![tactic(auto)]

ghost use Rattle.ledger.specs.Columns.{Same};
ghost use Rattle.stepping.specs.Steps.{can_pair, was_made};

use columns::SharedLedger;
use falling::{append_between, fall_both, next_from, next_to};
use ledger::Ledger;
use rules::Entry;

// What its steps leave: their number, the lots cancelled, the number of entries to be appended.
#[derive(Clone, Copy, Drop)]
pub struct Made {
    pub steps: usize,
    pub cancelled: u64,
    pub more: usize,
}

// All steps: while issue i has an entry to account a and one from it, the first of each fall where
// they stand. The entries P to Q go to a second ledger. Both places jump to what was found, until none is: no range
// says that. The first ledger comes in its columns: only the lots change, and a Ledger would ask for the other columns
// to be lent to be changed too. A struct of both kinds was tried: where it is made, the check does not know that the
// columns that are only read stay. How many entries there are stands beside them: the number changes between calls, and the
// state has it.
pub fn make_steps(
    issues: &[u8],
    froms: &[u8],
    tos: &[u8],
    lots: &mut [u32],
    days: &[u16],
    entries: usize,
    today: u16,
    i: u32,
    a: u32,
    second: &mut Ledger,
) -> Made
    requires { can_pair entries i issues froms tos lots days second.old }
    ensures done { was_made entries today i a result issues froms tos lots days second.new }
    ensures same { Same second.old second.new }
{
    let mut t = 0;
    let mut f = 0;
    let mut made = Made {
        steps: 0,
        cancelled: 0,
        more: 0,
    };
    loop {
        let now = SharedLedger {
            issues,
            froms,
            tos,
            lots: &*lots,
            days,
        };
        let Some(next_t) = next_to(now, entries, t, i, a) else {
            return made;
        };
        let Some(next_f) = next_from(now, entries, f, i, a) else {
            return made;
        };
        t = next_t;
        f = next_f;
        let to = ledger::entry_at(now, t);
        let from = ledger::entry_at(now, f);
        let m = fall_both(lots, t, to, f, from);
        let e = Entry {
            issue: i as u8,
            from: to.from,
            to: from.to,
            lots: m,
            day: today,
        };
        made.more = append_between(second, made.more, e);
        made.steps += 1;
        made.cancelled += u64::from(m);
    }
}
