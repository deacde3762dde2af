// One entry of the ledger met by an account's lots, and its record.
#![tactic(auto)]

ghost use Rattle.std.specs.Prelude.{◌≡◌, cond, ◌&&◌, ℕ, ◌+◌, ◌*◌, ◌≤◌, ◌<◌, min, eqb, length};
ghost use Rattle.rules.specs.Ledger.{entry};
ghost use Rattle.meeting.specs.Meeting.{Recorded, CanMeet, WasMet};

use rules::Entry;

// After one entry: the number of records, and the lots left.
#[derive(Clone, Copy, Drop)]
pub struct Met {
    pub records: usize,
    pub left: u32,
}

// What of x lots of account a in issue i meets an entry: where it is of that issue and from that account
// it is met in a lent slice of entry structs.
fn met_by(e: Entry, i: u32, a: u32, x: u32) -> u32
    ensures { result ≡ cond (eqb e.issue i && eqb e.from a) (min x e.lots) 0 }
{
    if ledger::is_of(e.issue, e.from, i, a) {
        return e.lots - ledger::left_of(e, x);
    }
    0
}

// A handover's record of x lots of an entry behind n others, unless they are 0; answers the number of
// records: n counts them from call to call, so the output comes whole.
fn hand(out: &mut [u32], n: usize, e: Entry, x: u32) -> usize
    requires { (2 * n + 2 ≤ length out.old) × (e.issue < 16) × (e.from < 64) × (e.to < 64) × (x < 268435456) }
    ensures { Recorded e x n result out.old out.new }
{
    if x == 0 {
        return n;
    }
    words::record(
        &mut out[2 * n..],
        11,
        u32::from(e.issue),
        u32::from(e.from),
        u32::from(e.to),
        x,
    );
    n + 1
}

// The entry e at place k met by x lots of account a in issue i: its lots fall by what meets it, and the
// record of that stands behind n others. Of the ledger only the lots change.
pub fn meet_at(
    lots: &mut [u32],
    k: usize,
    e: Entry,
    n: usize,
    i: u32,
    a: u32,
    x: u32,
    out: &mut [u32],
) -> Met
    requires { CanMeet k e n lots.old out.old }
    ensures { WasMet i a x k n result e lots.old lots.new out.old out.new }
{
    let m = met_by(e, i, a, x);
    let records = hand(out, n, e, m);
    lots[k] = e.lots - m;
    Met {
        records,
        left: x - m,
    }
}
