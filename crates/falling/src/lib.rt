// Entries that fall where they stand: the first of an account that is not at 0, two that fall together, one appended.
#![tactic(auto)]

ghost use Rattle.std.specs.Prelude.{◌≡◌, ◌++◌, ◌<◌};
ghost use Rattle.rules.specs.Ledger.{appended};
ghost use Rattle.ledger.specs.Columns.{Same, held, entries_in, kept};
ghost use Rattle.falling.specs.Places.{can_seek, next_of, CanSeek, next_in, within, CanFall, BothFell};

use columns::SharedLedger;
use ledger::Ledger;
use rules::Entry;
use seeking::seek;

// The place of the first entry not at 0 of issue i with account a in the column of accounts, where there
// is one. Before place `at` there is none. It jumps from one entry that `seek` finds to the next: no range says that.
// The columns come whole with the number of entries: the definitions take whole columns and the number of entries,
// and cutting each column at each call is no plainer.
pub fn next_of(
    entries: usize,
    at: usize,
    issues: &[u8],
    accounts: &[u8],
    lots: &[u32],
    i: u32,
    a: u32,
) -> Option<usize>
    requires { can_seek entries at i a issues accounts lots }
    ensures { next_of entries i a result issues accounts lots }
{
    let mut k = at;
    loop {
        let j = seek(entries, k, issues, accounts, i, a)?;
        if lots[j] != 0 {
            return Some(j);
        }
        k = j + 1;
    }
}

// The place of the first entry of issue i to account a that is not at 0: `next_of` over the accounts that receive. The two
// stay apart, for each names its own column in its contract; how many entries the columns hold is in the state.
pub fn next_to(ledger: SharedLedger, entries: usize, at: usize, i: u32, a: u32) -> Option<usize>
    requires { CanSeek entries at i a ledger.issues.now ledger.tos.now ledger.lots.now }
    ensures { result ≡ within entries (next_in entries ledger.entry.issues.now ledger.entry.tos.now ledger.entry.lots.now i a) }
{
    next_of(entries, at, ledger.issues, ledger.tos, ledger.lots, i, a)
}

// The place of the first entry of issue i from account a that is not at 0: `next_of` over the accounts that deliver.
pub fn next_from(ledger: SharedLedger, entries: usize, at: usize, i: u32, a: u32) -> Option<usize>
    requires { CanSeek entries at i a ledger.issues.now ledger.froms.now ledger.lots.now }
    ensures { result ≡ within entries (next_in entries ledger.entry.issues.now ledger.entry.froms.now ledger.entry.lots.now i a) }
{
    next_of(entries, at, ledger.issues, ledger.froms, ledger.lots, i, a)
}

// The entries at places t and f fall by the smaller of their lots; answers those. Of the ledger only the lots change.
pub fn fall_both(lots: &mut [u32], t: usize, to: Entry, f: usize, from: Entry) -> u32
    requires { CanFall t to f from lots.old }
    ensures { BothFell t f result lots.old lots.new }
{
    let m = to.lots.min(from.lots);
    lots[f] = ledger::left_of(from, m);
    lots[t] = ledger::left_of(to, m);
    m
}

// An entry behind the others, where its accounts differ; answers the number of entries. That stands beside the ledger:
// it changes between calls, and the caller has it.
pub fn append_between(ledger: &mut Ledger, entries: usize, e: Entry) -> usize
    requires { (entries < 2048) × held entries ledger.old }
    ensures done { kept (entries_in entries ledger.old ++ appended e.day e.issue e.from e.to e.lots) result ledger.new }
    ensures same { Same ledger.old ledger.new }
{
    if e.from == e.to {
        return entries;
    }
    ledger::append(ledger, entries, e);
    entries + 1
}
