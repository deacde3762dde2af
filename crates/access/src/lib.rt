// Who may call, who may look (document 02, F-10): the rights of a caller, the refusal of one that has not the
// right, and reading an account.
#![tactic(auto)]

ghost use Rattle.std.specs.Prelude.{◌≡◌, false, [], Ok};
ghost use Rattle.rules.specs.Questions.{first_no};
ghost use Rattle.rules.specs.Refusals.{number_of};
ghost use Rattle.rules.specs.Calls.{turn_asks};
ghost use Rattle.rules.specs.Access.{is_operator, owns, own_call, has_right, may_read, with_right, seen_answer};
ghost use Rattle.rules.specs.Run.{call_of};
ghost use Rattle.access.specs.Refusals.{refusal_of, without};
ghost use Rattle.access.specs.Places.{either_end, can_place, placed, CanSee, seen_of, CanLook, look_of};

use columns::SharedLedger;
use rules::{
    ACCOUNTS, Caller, Entry, Instruction, LAST_ACCOUNT, LAST_ISSUE, LAST_PARTICIPANT, OPERATOR,
    Refusal, Seen, State,
};

// Is the caller the operator?
pub fn is_operator(w: Caller) -> bool
    ensures { result ≡ is_operator w }
{
    w.number == OPERATOR
}

// Is the account the caller's own? None is the operator's, nor that of any other number above 15.
pub fn is_own(w: Caller, a: u32) -> bool
    ensures { result ≡ owns w a }
{
    let owners = w.owners;
    w.number <= LAST_PARTICIPANT && a <= LAST_ACCOUNT && owners[a as usize] as u32 == w.number
}

// May a participant make the call of this instruction: a deliver or a resolve for its own account?
fn own_call(w: Caller, x: Instruction) -> bool
    ensures { result ≡ own_call w (call_of x []) }
{
    match x {
        Instruction::Deliver(_, a, _) => is_own(w, a),
        Instruction::Resolve(_, a, _) => is_own(w, a),
        _ => false,
    }
}

// Has the caller the right to the call of this instruction?
pub fn has_right(w: Caller, x: Instruction) -> bool
    ensures { result ≡ has_right w (call_of x []) }
{
    is_operator(w) || own_call(w, x)
}

// May the caller read the account?
pub fn may_read(w: Caller, a: u32) -> bool
    ensures { result ≡ may_read w a }
{
    is_operator(w) || is_own(w, a)
}

// Why a caller that has not the right is refused: 3, 4 and 5, and then 27. What a call does not ask is given so
// that it is answered 'yes'.
pub fn refuse(good: bool, i: u32, f: u32, t: u32) -> Refusal
    ensures { number_of result ≡ first_no (without good i f t) }
{
    if !good {
        return Refusal::Phase;
    }
    if LAST_ISSUE < i {
        return Refusal::Issue;
    }
    if LAST_ACCOUNT < f || LAST_ACCOUNT < t {
        return Refusal::Account;
    }
    Refusal::Right
}

// Of a turn 26, and then 27.
fn refuse_turn(s: State, d: u32) -> Refusal
    ensures { number_of result ≡ first_no (with_right false (turn_asks s.turn s.day d)) }
{
    if settings::turn_asks(s, d).is_err() {
        return Refusal::Turn;
    }
    Refusal::Right
}

// The refusal of an instruction whose caller has not the right, on a sound book with enough room: its questions
// before 27, and then 27.
pub fn refusal(x: Instruction, s: State) -> Refusal
    ensures { number_of result ≡ refusal_of s x }
{
    let phase = s.phase;
    match x {
        Instruction::Trade(i, f, t, _) => refuse(book::taking(phase), i, f, t),
        Instruction::Deliver(i, a, _) => refuse(book::settling(phase), i, a, a),
        Instruction::Resolve(i, a, _) => refuse(true, i, a, a),
        Instruction::PairOff(i, a) => refuse(true, i, a, a),
        Instruction::Close => refuse(book::taking(phase), 0, 0, 0),
        Instruction::Cutoff => refuse(book::settling(phase), 0, 0, 0),
        Instruction::Roll(_, _) => refuse(book::cut(phase), 0, 0, 0),
        Instruction::Mark(i, _) => refuse(true, i, 0, 0),
        Instruction::Turn(d) => refuse_turn(s, d),
    }
}

// Is an entry with these numbers one of issue i with account a at either end?
fn either_end(issue: u8, from: u8, to: u8, i: u32, a: u32) -> bool
    ensures { result ≡ either_end issue from to i a }
{
    ledger::is_of(issue, from, i, a) || ledger::is_of(issue, to, i, a)
}

// The place of the k-th entry of issue i with account a at either end, if there is one. Here and below the number of
// entries stands beside the columns: it is in the state.
fn place_of(count: usize, ledger: SharedLedger, i: u32, a: u32, k: u32) -> Option<usize>
    requires { can_place count ledger }
    ensures { placed count ledger.entry i a k result }
{
    let mut left = k;
    for n in 0..count {
        if either_end(ledger.issues[n], ledger.froms[n], ledger.tos[n], i, a) {
            if left == 0 {
                return Some(n);
            }
            left -= 1;
        }
    }
    None
}

// What is seen of an account: net, charge and the k-th entry.
fn see(
    count: usize,
    nets: &[i32],
    charges: &[i64],
    ledger: SharedLedger,
    i: u32,
    a: u32,
    k: u32,
) -> Seen
    requires { CanSee count nets.now charges.now ledger i a }
    ensures { seen_answer (Ok result) ≡ seen_of count nets.now charges.now ledger.entry i a k }
{
    let entry = match place_of(count, ledger, i, a, k) {
        Some(at) => Some(Entry {
            issue: ledger.issues[at],
            from: ledger.froms[at],
            to: ledger.tos[at],
            lots: ledger.lots[at],
            day: ledger.days[at],
        }),
        None => None,
    };
    Seen {
        net: nets[(i * ACCOUNTS + a) as usize],
        charge: charges[a as usize],
        entry,
    }
}

// Reads an account, in any phase, on the columns of a sound book: its net in the issue, its charge and its k-th
// entry in the issue at either end, k from 0, or none for the entry exactly when it has no more than k such.
// Refuses an issue above 15 (4), an account above 63 (5) and a caller that may not read it (27).
pub fn look_in(
    w: Caller,
    count: usize,
    nets: &[i32],
    charges: &[i64],
    ledger: SharedLedger,
    i: u32,
    a: u32,
    k: u32,
) -> Result<Seen, Refusal>
    requires { CanLook count nets.now charges.now ledger }
    ensures { seen_answer result ≡ look_of w count nets.now charges.now ledger.entry i a k }
{
    if LAST_ISSUE < i {
        return Err(Refusal::Issue);
    }
    if LAST_ACCOUNT < a {
        return Err(Refusal::Account);
    }
    if !may_read(w, a) {
        return Err(Refusal::Right);
    }
    Ok(see(count, nets, charges, ledger, i, a, k))
}
