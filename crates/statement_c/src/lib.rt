// Fails statement over a span of a tape, for hosts in C and Rust. The call is that of the library `statement`, with the same
// contract.
#![tactic(auto)]

ghost use Rattle.std.specs.Prelude.{◌≡◌};
ghost use Rattle.spans.specs.Statement.{stated, statement as statementAnswer};

// An account's fails statement in an issue, from a tape's words: lots due to deliver at closes, delivered by
// cutoffs, failed, resolved; then failed over due as two whole numbers. The refusal's number (4, 5) with 0 for
// all of them, or 0.
#[unsafe(no_mangle)]
pub extern "C" fn day_statement(
    words: &[u32],
    issue: u32,
    account: u32,
    numbers: &mut [u64; 6],
) -> u32
    ensures { stated result numbers.new ≡ statementAnswer words.now issue account }
{
    match statement::day_statement(words, issue, account) {
        Ok(c) => {
            *numbers = [c.due, c.delivered, c.failed, c.resolved, c.failed, c.due];
            0
        }
        Err(refusal) => {
            *numbers = [0; 6];
            refusal.number()
        }
    }
}
