// The ledger in five columns: issue, from, to, lots, day. Its first entries stand at the front of each;
// the other places are 0.
#![tactic(auto)]

ghost use Rattle.std.specs.Prelude.{◌≡◌, ◌&&◌, [], ◌∷◌, ◌++◌, ◌+◌, ◌-◌, ◌≤◌, ◌<◌, min, eqb};
ghost use Rattle.rules.specs.Ledger.{entry};
ghost use Rattle.ledger.specs.Columns.{Same, Stored, Cleared, whole, unused, held, entries_in, kept, changed, Reads, shared_whole, shared_place, shared_entries};

use columns::SharedLedger;
use rules::Entry;

// The columns. C lends them whole; how many entries they hold stands beside them, in the state, and so in each function:
// the number changes between calls, and the state has it.
#[derive(Drop)]
pub struct Ledger<'a> {
    pub issues: &'a mut [u8],
    pub froms: &'a mut [u8],
    pub tos: &'a mut [u8],
    pub lots: &'a mut [u32],
    pub days: &'a mut [u16],
}

// The columns, only read. Of a column that is lent alone, as `&*ledger.lots`, the check does not know that it stays as
// it was: so what reads a column of a ledger that is changed later reads it here.
pub fn shared<'a>(ledger: &'a Ledger) -> SharedLedger<'a>
    ensures { Reads result ledger.now }
{
    SharedLedger {
        issues: &*ledger.issues,
        froms: &*ledger.froms,
        tos: &*ledger.tos,
        lots: &*ledger.lots,
        days: &*ledger.days,
    }
}

// The entry at a place.
pub fn entry_at(ledger: SharedLedger, k: usize) -> Entry
    requires { (k < 2048) × shared_whole ledger }
    ensures { result ≡ shared_place k ledger.entry }
{
    Entry {
        issue: ledger.issues[k],
        from: ledger.froms[k],
        to: ledger.tos[k],
        lots: ledger.lots[k],
        day: ledger.days[k],
    }
}

// An entry at a place, whatever stood there.
fn store(ledger: &mut Ledger, at: usize, e: Entry)
    requires { (at < 2048) × whole ledger.old }
    ensures done { changed (Stored at e) ledger.old ledger.new }
    ensures same { Same ledger.old ledger.new }
{
    ledger.issues[at] = e.issue;
    ledger.froms[at] = e.from;
    ledger.tos[at] = e.to;
    ledger.lots[at] = e.lots;
    ledger.days[at] = e.day;
}

// One entry behind the others.
pub fn append(ledger: &mut Ledger, entries: usize, e: Entry)
    requires { (entries < 2048) × held entries ledger.old }
    ensures done { kept (entries_in entries ledger.old ++ (e ∷ [])) (entries + 1) ledger.new }
    ensures same { Same ledger.old ledger.new }
{
    store(ledger, entries, e);
}

// Whether an entry with this issue and this account, from or to, is of issue i and account a.
pub fn is_of(issue: u8, account: u8, i: u32, a: u32) -> bool
    ensures { result ≡ eqb issue i && eqb account a }
{
    u32::from(issue) == i && u32::from(account) == a
}

// The lots left of an entry that is met by m lots: it is taken out of its columns and met in a lent
// slice of entry structs.
pub fn left_of(e: Entry, m: u32) -> u32
    ensures { result ≡ e.lots - min e.lots m }
{
    let after = entries::met(e, m);
    after.lots
}

// Places from w on are 0. Those from `entries` on are so already.
pub fn clear(ledger: &mut Ledger, w: usize, entries: usize)
    requires { (w ≤ entries) × unused entries ledger.old }
    ensures done { changed (Cleared w) ledger.old ledger.new }
    ensures same { Same ledger.old ledger.new }
{
    ledger.issues[w..entries].fill(0);
    ledger.froms[w..entries].fill(0);
    ledger.tos[w..entries].fill(0);
    ledger.lots[w..entries].fill(0);
    ledger.days[w..entries].fill(0);
}

// The entries of a second ledger behind those of the first.
pub fn append_all(ledger: &mut Ledger, entries: usize, other: SharedLedger, more: usize)
    requires { (entries + more ≤ 2048) × held entries ledger.old × shared_whole other }
    ensures done { kept (entries_in entries ledger.old ++ shared_entries more other.entry) (entries + more) ledger.new }
    ensures same { Same ledger.old ledger.new }
{
    for j in 0..more {
        append(ledger, entries + j, entry_at(other, j));
    }
}
