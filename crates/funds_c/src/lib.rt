// Obligated funds for a default, for a treasurer's host in C or Rust. Amounts are in 100 million yen. Each call is that of
// the library `funds`, with the same contract.
#![tactic(auto)]

ghost use Rattle.std.specs.Prelude.{◌≡◌};
ghost use Rattle.contributions.specs.Funds.{answered, bases as basesAnswer, shares as sharesAnswer, funds as funds_answer};

use funds::PARTICIPANTS;
use rules::number_in;

// The base contributions of averages, for a factor in tenths: the refusal's number, 0 where it is done.
#[unsafe(no_mangle)]
pub extern "C" fn day_bases(averages: &[u64], tenths: u64, out: &mut [u64; PARTICIPANTS]) -> u32
    ensures { answered result out.new ≡ basesAnswer averages.now tenths out.old }
{
    number_in(funds::day_bases(averages, tenths, out))
}

// The shares of the funds among participants with given bases: the refusal's number, 0 where it is done.
#[unsafe(no_mangle)]
pub extern "C" fn day_shares(
    averages: &[u64],
    bases: &[u64],
    funds: u64,
    out: &mut [u64; PARTICIPANTS],
) -> u32
    ensures { answered result out.new ≡ sharesAnswer averages.now bases.now funds out.old }
{
    number_in(funds::day_shares(averages, bases, funds, out))
}

// The shares of the funds among participants with the bases of their averages: the refusal's number, 0 where it is done.
#[unsafe(no_mangle)]
pub extern "C" fn day_funds(
    averages: &[u64],
    tenths: u64,
    funds: u64,
    out: &mut [u64; PARTICIPANTS],
) -> u32
    ensures { answered result out.new ≡ funds_answer averages.now tenths funds out.old }
{
    number_in(funds::day_funds(averages, tenths, funds, out))
}
