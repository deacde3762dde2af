// The questions of a simulation, where that of the book's soundness, which is asked before, is answered so.
ghost use Rattle.std.specs.Prelude.{◌≡◌, leb};
ghost use Rattle.rules.specs.Book.{all};
ghost use Rattle.rules.specs.Questions.{first_no};
ghost use Rattle.rules.specs.Refusals.{number_in};
ghost use Rattle.desks.specs.Simulation.{simulation_asks};

use desks::{INVENTORY_COUNT, LAST_SETTLEMENT};
use rules::{ACCOUNT_COUNT, MOST_LOTS, Refusal, UNIT_LOTS};

// Is each number of the list at most so much?
fn at_most(xs: &[u32], most: u32) -> bool
    ensures { result ≡ all (λ x. leb x most) xs.now }
{
    xs.iter().all(|x| *x <= most)
}

// The questions, where 2 is answered so: the first 'no'.
pub fn simulation_asks(
    good: bool,
    settles: &[u32],
    inventories: &[u32],
    size: u32,
) -> Result<(), Refusal>
    ensures { number_in result ≡ first_no (simulation_asks good settles.now inventories.now size) }
{
    if !good {
        return Err(Refusal::Unsound);
    }
    if settles.len() != ACCOUNT_COUNT || !at_most(settles, LAST_SETTLEMENT) {
        return Err(Refusal::Account);
    }
    if size < 1 || UNIT_LOTS < size {
        return Err(Refusal::Lots);
    }
    if inventories.len() != INVENTORY_COUNT || !at_most(inventories, MOST_LOTS) {
        return Err(Refusal::Lots);
    }
    Ok(())
}
