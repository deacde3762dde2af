// Fails inside a trust account, for a bank in C or Rust: each report's share of a fail. The call is that of the library
// `trust`, with the same contract.
#![tactic(auto)]

ghost use Rattle.std.specs.Prelude.{◌≡◌};
ghost use Rattle.reports.specs.Reports.{reports};
ghost use Rattle.reports.specs.Trust.{answered, trust};

use reports::Columns;
use rules::number_in;

// Each report's share of the fail, at the place of its number: the refusal's number, 0 where it is done.
#[unsafe(no_mangle)]
pub extern "C" fn day_trust(
    subs: &[u32],
    parties: &[u32],
    lots: &[i32],
    earlier: &[u8],
    draw: &[u32],
    fail: u32,
    failing: u32,
    out: &mut [u32],
) -> u32
    ensures { answered result out.new ≡ trust (reports subs.now parties.now lots.now earlier.now) draw.now fail failing out.old }
{
    let columns = Columns {
        subs,
        parties,
        lots,
        earlier,
    };
    number_in(trust::day_trust(columns, draw, fail, failing, out))
}
