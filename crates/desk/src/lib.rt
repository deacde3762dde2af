// What a host asks without a book, in plain numbers: value and charge of lots, and the tape's reader and writer. The
// number returned is the refusal's, 0 where it is done, as the C interface has it: the claims of every host are of it. `desk_c` exports these functions to C.
//
// An instruction is its kind and four numbers a, b, c, d, 0 where there is none:
//   1 trade     issue, from, to, lots
//   2 deliver   issue, account, lots
//   3 resolve   issue, account, lots
//   4 pair-off  issue, account
//   5 close
//   6 cutoff
//   7 roll      days, rate (the sixteen prices and sixteen accrued amounts stand beside it)
//   13 mark     issue, mark (0 takes it away, any other number sets it; the tape has 0 and 1 only)
//   14 turn     day, the first on which full units are dealt in turn (the tape has 0 to 65,535 only)
#![tactic(auto)]

pub mod fields;
pub mod reading;

ghost use Rattle.std.specs.Prelude.{◌≡◌};
ghost use Rattle.std.specs.Result.{result_unwrap_or};
ghost use Rattle.rules.specs.Refusals.{number_in};
ghost use Rattle.rules.specs.Calls.{value, charge};
ghost use Rattle.desk.specs.Plain.{Plain};

use rules::{Lots, Refusal};

// An answer in plain numbers: 0 with the value in the lent place, or the refusal's number with `none` there.
fn plain<T: Copy + Drop>(answer: Result<T, Refusal>, none: T, place: &mut T) -> u32
    ensures { (result ≡ number_in answer) × (place.new ≡ result_unwrap_or answer none) }
{
    match answer {
        Ok(value) => {
            *place = value;
            0
        }
        Err(no) => {
            *place = none;
            no.number()
        }
    }
}

// The value of lots at a price and an accrued amount: 0 with the yen, or 7 (lots) or 11 (price, accrued) with 0 yen.
pub fn day_value(lots: u32, price: u32, accrued: u32, yen: &mut u64) -> u32
    ensures { Plain (value lots price accrued) result yen.new }
{
    let value = measures::value(Lots(lots), price, accrued).map(|y| y.0);
    plain(value, 0, yen)
}

// The charge on lots at a price and an accrued amount over days at a rate: 0 with the yen, or 7 (lots) or 11 (the other numbers)
// with 0 yen.
pub fn day_charge(lots: u32, price: u32, days: u32, rate: u32, accrued: u32, yen: &mut u64) -> u32
    ensures { Plain (charge lots price days rate accrued) result yen.new }
{
    let charge = measures::charge(Lots(lots), price, days, rate, accrued).map(|y| y.0);
    plain(charge, 0, yen)
}
