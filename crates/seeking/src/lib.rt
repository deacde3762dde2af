// Entries of an issue and an account looked for along the ledger's columns, by blocks. The columns come whole with the
// number of entries: the definitions take whole columns and the number of entries, and cutting each column at each
// call is no plainer.
#![tactic(auto)]

ghost use Rattle.std.specs.Prelude.{◌≡◌, true, List, ℕ, ◌≤◌, ◌<◌, leb, length};
ghost use Rattle.rules.specs.Ledger.{is_from, lots_of};
ghost use Rattle.rules.specs.Book.{entries as entries_of};
ghost use Rattle.seeking.specs.Places.{none_of, can_look, passed_by, found_by};

// Places that are looked at together, many of them and few.
const MANY: usize = 64;

const FEW: usize = 16;

// Whether no entry at places s to before e is of issue i and account a. Every place is looked at: so
// the compiler compares many at once.
fn none_in(s: usize, e: usize, issues: &[u8], accounts: &[u8], i: u8, a: u8) -> bool
    requires { can_look e s issues accounts }
    ensures { result ≡ true → none_of s e i a issues accounts }
{
    let mut none = true;
    for k in s..e {
        none = none & ((issues[k] != i) | (accounts[k] != a));
    }
    none
}

// A place up to which, from place `at` on, there is none of issue i and account a: behind whole blocks
// of `size` places without one. It goes on as far as blocks have none: no range ends there.
fn pass(
    size: usize,
    entries: usize,
    at: usize,
    issues: &[u8],
    accounts: &[u8],
    i: u8,
    a: u8,
) -> usize
    requires { (0 < size) × can_look entries at issues accounts }
    ensures { passed_by entries at result i a issues accounts }
{
    let mut k = at;
    while size <= entries - k {
        if !none_in(k, k + size, issues, accounts, i, a) {
            return k;
        }
        k += size;
    }
    k
}

// The same behind large blocks and then small ones. That place is no answer of `seek` yet: of the entry at it nothing
// is said.
fn pass_all(entries: usize, at: usize, issues: &[u8], accounts: &[u8], i: u32, a: u32) -> usize
    requires { can_look entries at issues accounts }
    ensures { passed_by entries at result i a issues accounts }
{
    let Ok(issue) = u8::try_from(i) else {
        return at;
    };
    let Ok(account) = u8::try_from(a) else {
        return at;
    };
    let k = pass(MANY, entries, at, issues, accounts, issue, account);
    pass(FEW, entries, k, issues, accounts, issue, account)
}

// The first place from `at` on with an entry of issue i and account a, where there is one.
pub fn seek(
    entries: usize,
    at: usize,
    issues: &[u8],
    accounts: &[u8],
    i: u32,
    a: u32,
) -> Option<usize>
    requires { can_look entries at issues accounts }
    ensures { found_by entries at result i a issues accounts }
{
    let k = pass_all(entries, at, issues, accounts, i, a);
    for j in k..entries {
        if ledger::is_of(issues[j], accounts[j], i, a) {
            return Some(j);
        }
    }
    None
}

// Whether account a owes at least x lots in issue i: of all entries from it. Whoever is owed and since
// when does not matter. Entries behind those that make up x lots are not looked at, and from one that is found the
// search jumps to the next: no range says that.
pub fn owes(
    entries: usize,
    issues: &[u8],
    froms: &[u8],
    lots: &[u32],
    i: u32,
    a: u32,
    x: u32,
) -> bool
    requires { (entries ≤ 2048) × (length issues.now ≡ 2048) × (length froms.now ≡ 2048) × (length lots.now ≡ 2048) }
    ensures { (ts ds : List ℕ) → result ≡ leb x (lots_of (is_from i a) (entries_of entries issues.now froms.now ts lots.now ds)) }
{
    let mut left = x;
    let mut k = 0;
    while 0 < left {
        let Some(m) = seek(entries, k, issues, froms, i, a) else {
            return false;
        };
        left = left.saturating_sub(lots[m]);
        k = m + 1;
    }
    true
}
