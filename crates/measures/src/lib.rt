// Value and charge of lots, and the questions 7 and 11 on the numbers that they take.
// The numbers stand one by one: the questions are about each.
#![tactic(auto)]

ghost use Rattle.std.specs.Prelude.{◌≡◌, ◌&&◌, [], ◌∷◌, ◌/◌};
ghost use Rattle.rules.specs.Measures.{between, most_lots};
ghost use Rattle.rules.specs.Questions.{ask, first_no, quote_right, term_right};
ghost use Rattle.rules.specs.Refusals.{number_in};
ghost use Rattle.rules.specs.Calls.{amount_answer, value as valueAnswer, charge as chargeAnswer};
ghost use Rattle.measures.specs.Range.{Priced, Termed, ValueIs, ChargeIs};

use rules::{Lots, MOST_LOTS, Refusal, Yen};

const MOST_PRICE: u32 = 200_000;

const MOST_ACCRUED: u32 = 10_000;

// price and accrued together
const MOST_SUM: u64 = 200_000;

const MOST_DAYS: u32 = 12;

const MOST_RATE: u32 = 10_000;

// Question 7: lots are 1..20,000,000.
pub fn lots_right(x: u32) -> bool
    ensures { result ≡ between 1 most_lots x }
{
    (1 <= x) & (x <= MOST_LOTS)
}

// Question 11 on a price and an accrued amount: 1..200,000 and 0..10,000, together at most 200,000.
pub fn quote_right(price: u32, accrued: u32) -> bool
    ensures { result ≡ quote_right price accrued }
{
    (1 <= price)
        & (price <= MOST_PRICE)
        & (accrued <= MOST_ACCRUED)
        & ((price as u64) + (accrued as u64) <= MOST_SUM)
}

// Question 11 on days and rate: days are 1..12, the rate is 0..10,000.
pub fn term_right(days: u32, rate: u32) -> bool
    ensures { result ≡ term_right days rate }
{
    (1 <= days) & (days <= MOST_DAYS) & (rate <= MOST_RATE)
}

// Question 11 on all that a charge is counted from beside the lots.
fn charge_right(price: u32, days: u32, rate: u32, accrued: u32) -> bool
    ensures { result ≡ quote_right price accrued && term_right days rate }
{
    quote_right(price, accrued) & term_right(days, rate)
}

// The first of question 7 on lots and question 11 on the rest that is answered 'no'.
fn asked(lots: bool, rest: bool) -> Result<(), Refusal>
    ensures { number_in result ≡ first_no (ask 7 lots ∷ ask 11 rest ∷ []) }
{
    if !lots {
        return Err(Refusal::Lots);
    }
    if !rest {
        return Err(Refusal::Terms);
    }
    Ok(())
}

// Half of x, rounded down.
fn halved(x: u64) -> u64
    ensures { result ≡ x / 2 }
{
    x / 2
}

// The value of lots at a price and an accrued amount, in yen, each part rounded down.
fn value_of(lots: u32, price: u32, accrued: u32) -> u64
    requires { Priced lots price accrued }
    ensures { ValueIs lots price accrued result }
{
    halved((lots as u64) * (price as u64)) + halved((lots as u64) * (accrued as u64))
}

// The charge on that value over days at a rate, in yen, rounded down.
pub fn charge_of(lots: u32, price: u32, days: u32, rate: u32, accrued: u32) -> u64
    requires { Priced lots price accrued × Termed days rate }
    ensures { ChargeIs lots price days rate accrued result }
{
    value_of(lots, price, accrued) * (rate as u64) * (days as u64) / 3_650_000
}

// The value of lots at a price and an accrued amount, or refusal 7 (lots) or 11 (price, accrued).
pub fn value(lots: Lots, price: u32, accrued: u32) -> Result<Yen, Refusal>
    ensures { amount_answer result ≡ valueAnswer lots.0 price accrued }
{
    asked(lots_right(lots.0), quote_right(price, accrued))?;
    Ok(Yen(value_of(lots.0, price, accrued)))
}

// The charge on lots at a price and an accrued amount over days at a rate, or refusal 7 (lots) or 11 (the other numbers).
pub fn charge(lots: Lots, price: u32, days: u32, rate: u32, accrued: u32) -> Result<Yen, Refusal>
    ensures { amount_answer result ≡ chargeAnswer lots.0 price days rate accrued }
{
    asked(lots_right(lots.0), charge_right(price, days, rate, accrued))?;
    Ok(Yen(charge_of(lots.0, price, days, rate, accrued)))
}
