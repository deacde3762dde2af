// Each entry of the ledger charged, in place.
#![tactic(auto)]

ghost use Rattle.std.specs.Prelude.{◌≡◌};
ghost use Rattle.charging.specs.Charging.{Payable, paid, can_charge, was_charged};

use columns::SharedLedger;
use rules::ISSUE_COUNT;

// Yen are taken from one account and given to another.
fn pay(charges: &mut [i64], f: usize, t: usize, y: u64)
    requires { Payable charges.old f t y }
    ensures { charges.new ≡ paid f t y charges.old }
{
    charges[f] -= y as i64;
    charges[t] += y as i64;
}

// Each entry is charged: its charge is taken from 'from' and given to 'to'.
pub fn charge_entries(
    ledger: SharedLedger,
    entries: usize,
    days: u32,
    rate: u32,
    quotes: &[u32],
    charges: &mut [i64],
)
    requires { can_charge ledger entries days rate quotes charges }
    ensures { was_charged ledger.entry entries days rate quotes charges }
{
    for k in 0..entries {
        let i = ledger.issues[k] as usize;
        let x = ledger.lots[k];
        let y = measures::charge_of(x, quotes[i], days, rate, quotes[ISSUE_COUNT + i]);
        pay(charges, ledger.froms[k] as usize, ledger.tos[k] as usize, y);
    }
}
