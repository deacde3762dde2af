// mark: its questions over nets and ledger, and its effect on the marks. turn: its question.
#![tactic(auto)]

ghost use Rattle.std.specs.Prelude.{◌≡◌, List, ℕ, ◌≤◌, ◌<◌, min, nat_abs, length, ◌&&◌, not, ltb, eqb};
ghost use Rattle.rules.specs.Refusals.{number_in};
ghost use Rattle.rules.specs.Book.{all, is_zero, entries as entries_of, in_force};
ghost use Rattle.rules.specs.Questions.{first_no, no_entry};
ghost use Rattle.rules.specs.Calls.{mark_asks, marked_as, turn_asks, Mark, Turn as NameTurn};
ghost use Rattle.answers.specs.Turns.{TurnsAlone, on_state, on_marks, mark_ready};

use answers::Turn;
use rules::{ACCOUNT_COUNT, ISSUE_COUNT, LAST_ISSUE, Refusal, State};

// Is a net 0?
fn is_none(n: i32) -> bool
    ensures { result ≡ is_zero (nat_abs n) }
{
    n == 0
}

// Are all nets of an issue 0? With no early end, here and below, so that many places are compared at once.
fn no_net(net: &[i32]) -> bool
    ensures { result ≡ all (λ n. is_zero (nat_abs n)) net.now }
{
    let mut good = true;
    for n in net {
        good &= is_none(*n);
    }
    good
}

// Is no entry of the ledger in this issue?
fn no_entry(issues: &[u8], i: u32) -> bool
    ensures { result ≡ all (λ j. not (eqb j i)) issues.now }
{
    let mut good = true;
    for j in issues {
        good &= *j as u32 != i;
    }
    good
}

// Questions 4 and 20 of a mark: the refusal of the first 'no'.
fn mark_asks<'a>(s: State, nets: &'a [i32], issues: &'a [u8], i: u32) -> Result<(), Refusal>
    requires { (s.entries ≤ 2048) × (length nets.now ≡ 1024) × (length issues.now ≡ 2048) }
    ensures { (fs ts xs ds : List ℕ) → number_in result ≡ first_no (mark_asks nets.now (entries_of s.entries issues.now fs ts xs ds) i) }
{
    if LAST_ISSUE < i {
        return Err(Refusal::Issue);
    }
    let b = i as usize * ACCOUNT_COUNT;
    let e = b + ACCOUNT_COUNT;
    let flat = no_net(&nets[b..e]);
    let clear = no_entry(&issues[..s.entries], i);
    if !(flat & clear) {
        return Err(Refusal::Used);
    }
    Ok(())
}

// 1, or 0 for no mark.
fn bit(m: u32) -> u8
    ensures { result ≡ min m 1 }
{
    m.min(1) as u8
}

// The marks with that of an issue set.
fn mark_in(marks: [u8; ISSUE_COUNT], i: u32, m: u32) -> [u8; ISSUE_COUNT]
    requires { i < 16 }
    ensures { result ≡ marked_as marks i m }
{
    let mut next = marks;
    next[i as usize] = bit(m);
    next
}

// Is a day after today, and is the new order not yet in force?
fn can_be_named(s: State, d: u32) -> bool
    ensures { result ≡ (ltb s.day d && not (in_force s.turn s.day)) }
{
    let today = s.day as u32;
    (today < d) & !((0 < s.turn) & (s.turn <= today))
}

// Question 26 of a turn: can the day be named?
pub fn turn_asks(s: State, d: u32) -> Result<(), Refusal>
    ensures { number_in result ≡ first_no (turn_asks s.turn s.day d) }
{
    if can_be_named(s, d) {
        Ok(())
    } else {
        Err(Refusal::Turn)
    }
}

// mark: the issue's mark, unless it is refused.
pub fn mark<'a>(
    s: State,
    nets: &'a [i32],
    issues: &'a [u8],
    i: u32,
    m: u32,
) -> Result<Turn, Refusal>
    requires { mark_ready s nets issues }
    ensures { TurnsAlone (on_marks nets issues) s (Mark i m) result }
{
    mark_asks(s, nets, issues, i)?;
    let marks = s.marks;
    let next = book::with_marks(s, mark_in(marks, i, m));
    Ok(answers::done(next))
}

// turn: the first day on which full units are dealt in turn, unless it is refused.
pub fn turn(s: State, d: u32) -> Result<Turn, Refusal>
    ensures { TurnsAlone on_state s (NameTurn d) result }
{
    turn_asks(s, d)?;
    let next = book::with_turn(s, d);
    Ok(answers::done(next))
}
