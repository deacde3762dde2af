// Entries at 0 taken out of the ledger's columns: what stands between two of them moves up as a whole.
#![tactic(auto)]

ghost use Rattle.std.specs.Prelude.{◌≡◌, true};
ghost use Rattle.ledger.specs.Columns.{Same, without_zeros, entries_in, kept, changed};
ghost use Rattle.seeking.specs.Places.{Sought};
ghost use Rattle.removing.specs.Moves.{zero_at, can_look_for, none_at_zero, passed_zeros, CanMove, Moved, can_move_all, MovedAll, removable};

use ledger::Ledger;

// Places that are looked at together.
const MANY: usize = 64;

// Whether none of the entries at places s to before e is at 0. Every place is looked at: so the compiler
// compares many at once. `seeking` looks by blocks too: one function of both would take the comparison as a closure with
// a contract of its own, which is no plainer.
fn none_zero(s: usize, e: usize, lots: &[u32]) -> bool
    requires { can_look_for e s lots }
    ensures { result ≡ true → none_at_zero s e lots }
{
    let mut none = true;
    for k in s..e {
        none = none & (lots[k] != 0);
    }
    none
}

// A place up to which, from place `at` on, there is no entry at 0: behind whole blocks without one. It goes
// on as far as blocks have none: no range ends there.
fn pass_zeros(end: usize, at: usize, lots: &[u32]) -> usize
    requires { can_look_for end at lots }
    ensures { passed_zeros end at result lots }
{
    let mut k = at;
    while MANY <= end - k {
        if !none_zero(k, k + MANY, lots) {
            return k;
        }
        k += MANY;
    }
    k
}

// The first place from `at` on with an entry at 0, where there is one before `end`.
fn first_zero(end: usize, at: usize, lots: &[u32]) -> Option<usize>
    requires { can_look_for end at lots }
    ensures { Sought (zero_at lots.now) end at result }
{
    let k = pass_zeros(end, at, lots);
    for j in k..end {
        if lots[j] == 0 {
            return Some(j);
        }
    }
    None
}

// Places s to before e of a column again from place w on.
fn move_up<T: Copy>(w: usize, s: usize, e: usize, c: &mut [T])
    requires { CanMove w s e c.old }
    ensures { Moved w s e c.old c.new }
{
    for k in 0..e - s {
        c[w + k] = c[s + k];
    }
}

// The same in all five columns.
fn move_all(ledger: &mut Ledger, w: usize, s: usize, e: usize)
    requires { can_move_all w s e ledger.old }
    ensures done { changed (MovedAll w s e) ledger.old ledger.new }
    ensures same { Same ledger.old ledger.new }
{
    move_up(w, s, e, ledger.issues);
    move_up(w, s, e, ledger.froms);
    move_up(w, s, e, ledger.tos);
    move_up(w, s, e, ledger.lots);
    move_up(w, s, e, ledger.days);
}

// Entries at 0, which stand from place `at` to before place `end`, go and later ones move up; answers the
// number of those that stay. What stands before an entry at 0 ends there, and at the last entry where no more
// is at 0. It jumps from one entry at 0 to the next: no range says that. The number of entries stands beside the ledger:
// it changes between calls, and the state has it.
pub fn remove_zeros(ledger: &mut Ledger, entries: usize, at: usize, end: usize) -> usize
    requires { removable entries at end ledger.old }
    ensures done { kept (without_zeros (entries_in entries ledger.old)) result ledger.new }
    ensures same { Same ledger.old ledger.new }
{
    let Some(first) = first_zero(end, at, ledger::shared(ledger).lots) else {
        return entries;
    };
    let mut w = first;
    let mut k = first;
    while k < entries {
        let s = k + 1;
        let e = first_zero(end, s, ledger::shared(ledger).lots).unwrap_or(entries);
        move_all(ledger, w, s, e);
        w += e - s;
        k = e;
    }
    ledger::clear(ledger, w, entries);
    w
}
