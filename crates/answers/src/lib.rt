// What a call in place answers where it is done.
#![tactic(auto)]

ghost use Rattle.std.specs.Prelude.{◌≡◌};
ghost use Rattle.answers.specs.Turns.{turn_of};

use rules::State;

// What an instruction that is done answers: the count of records (for pair-off, steps), pair-off's lots
// cancelled, and the state after it. One that is refused answers the refusal, and leaves the state as it was.
#[derive(Clone, Copy, Drop)]
pub struct Turn {
    pub count: usize,
    pub cancelled: u64,
    pub state: State,
}

// A call that is done and counts nothing.
pub fn done(s: State) -> Turn
    ensures { result ≡ turn_of 0 0 s }
{
    Turn {
        count: 0,
        cancelled: 0,
        state: s,
    }
}
