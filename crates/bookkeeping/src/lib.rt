// The scan of ledger and charges for soundness: one pass over each column. Any content is scanned, no sum wraps.
#![tactic(auto)]

ghost use Rattle.std.specs.Prelude.{◌≡◌, ◌≤◌, length};
ghost use Rattle.rules.specs.Book.{all, entries, LedgerLengths};
ghost use Rattle.balancing.specs.Scan.{delivered_sound, entries_sound, unused_zero, ledger_sound, charges_sound};
ghost use Rattle.bookkeeping.specs.Columns.{issue_sound, sides_sound, lots_sound, days_rise};

use balancing::{LAST_ISSUE, zeros};
use book::taking;
use columns::SharedLedger;
use rules::{MOST_ENTRIES, MOST_LOTS, Phase, State};

// the last account, as the ledger's columns have it
const LAST_ACCOUNT: u8 = 63;

// Are delivered lots 0 throughout, if the phase is Taking?
#[tactic(auto, unfolding(balancing::specs::Scan::delivered_sound))]
pub fn delivered_sound(phase: Phase, delivered: &[u32]) -> bool
    ensures { result ≡ delivered_sound phase delivered.now }
{
    !taking(phase) || zeros(delivered)
}

// Is each number one of an issue?
fn issues_sound(issues: &[u8]) -> bool
    ensures { result ≡ all issue_sound issues.now }
{
    let mut good = true;
    for i in issues {
        good &= *i <= LAST_ISSUE;
    }
    good
}

// Are both numbers those of accounts, from unlike to?
fn sides_sound<'a>(froms: &'a [u8], tos: &'a [u8]) -> bool
    requires { length froms.now ≡ length tos.now }
    ensures { result ≡ sides_sound froms.now tos.now }
{
    let mut good = true;
    for (f, t) in froms.iter().zip(tos) {
        good &= (*f <= LAST_ACCOUNT) & (*t <= LAST_ACCOUNT) & (*f != *t);
    }
    good
}

// Are the lots of each entry 1..20,000,000?
fn lots_sound(lots: &[u32]) -> bool
    ensures { result ≡ all lots_sound lots.now }
{
    let mut good = true;
    for x in lots {
        good &= (1 <= *x) & (*x <= MOST_LOTS);
    }
    good
}

// Do days never fall along the entries, nor lie above today?
fn days_sound(today: u16, days: &[u16]) -> bool
    ensures { result ≡ days_rise 0 today days.now }
{
    let n = days.len();
    if n == 0 {
        return true;
    }
    let mut good = true;
    // by index: each day stands beside the one before it
    for k in 1..n {
        good &= days[k - 1] <= days[k];
    }
    good & (days[n - 1] <= today)
}

// Are the entries right, do days never fall along them, nor lie above today? Each column is looked at by itself, every
// place of it: so the compiler compares many at once.
fn entries_sound(s: State, ledger: SharedLedger) -> bool
    requires { (s.entries ≤ 2048) × LedgerLengths ledger.issues.now ledger.froms.now ledger.tos.now ledger.lots.now ledger.days.now }
    ensures { result ≡ entries_sound s.day (entries s.entries ledger.entry.issues.now ledger.entry.froms.now ledger.entry.tos.now ledger.entry.lots.now ledger.entry.days.now) }
{
    let today = s.day;
    let n = s.entries;
    let i = issues_sound(&ledger.issues[..n]);
    let a = sides_sound(&ledger.froms[..n], &ledger.tos[..n]);
    let x = lots_sound(&ledger.lots[..n]);
    let d = days_sound(today, &ledger.days[..n]);
    i & a & x & d
}

// Are the unused entries zero? The number of entries stands beside the columns: it is in the state.
#[tactic(auto, unfolding(balancing::specs::Scan::unused_zero))]
fn unused_zero(entries: usize, ledger: SharedLedger) -> bool
    requires { (entries ≤ 2048) × LedgerLengths ledger.issues.now ledger.froms.now ledger.tos.now ledger.lots.now ledger.days.now }
    ensures { result ≡ unused_zero entries ledger.entry.issues.now ledger.entry.froms.now ledger.entry.tos.now ledger.entry.lots.now ledger.entry.days.now }
{
    let i = zeros(&ledger.issues[entries..]);
    let f = zeros(&ledger.froms[entries..]);
    let t = zeros(&ledger.tos[entries..]);
    let x = zeros(&ledger.lots[entries..]);
    let d = zeros(&ledger.days[entries..]);
    i & f & t & x & d
}

// Is the ledger sound? A number of entries above 2,048 is not.
#[tactic(auto, unfolding(balancing::specs::Scan::ledger_sound))]
pub fn ledger_sound(s: State, ledger: SharedLedger) -> bool
    requires { LedgerLengths ledger.issues.now ledger.froms.now ledger.tos.now ledger.lots.now ledger.days.now }
    ensures { result ≡ ledger_sound s.day s.entries ledger.entry.issues.now ledger.entry.froms.now ledger.entry.tos.now ledger.entry.lots.now ledger.entry.days.now }
{
    let n = s.entries;
    if MOST_ENTRIES < n {
        return false;
    }
    let used = entries_sound(s, ledger);
    let unused = unused_zero(n, ledger);
    used & unused
}

// Are the charges in balance, and each in bounds? Sums of 64 charges fit 128 bits.
#[tactic(auto, unfolding(balancing::specs::Scan::charges_sound))]
pub fn charges_sound(today: u16, charges: &[i64]) -> bool
    requires { length charges.now ≡ 64 }
    ensures { result ≡ charges_sound today charges.now }
{
    let most = 134_663_013_697_536 * (today as u64);
    let mut good = true;
    let mut sum: i128 = 0;
    for c in charges {
        good &= c.unsigned_abs() <= most;
        sum += *c as i128;
    }
    (sum == 0) & good
}
