// Every small market, and how many of them have how many fail entries, for a tester's host in C or Rust. Each call is that
// of the library `listing`, with the same contract.
#![tactic(auto)]

ghost use Rattle.std.specs.Prelude.{◌≡◌};
ghost use Rattle.markets.specs.Answers.{listed, all_markets, counted, market_fails};

// All markets of n accounts with nets within ±m: the refusal's number, 0 where it is done.
#[unsafe(no_mangle)]
pub extern "C" fn day_markets(n: u32, m: u32, out: &mut [i32], count: &mut u32) -> u32
    ensures { listed result count.new out.new ≡ all_markets n m out.old }
{
    match listing::day_markets(n, m, out) {
        Ok(number) => {
            *count = number;
            0
        }
        Err(refusal) => {
            *count = 0;
            refusal.number()
        }
    }
}

// How many markets in which each account owes at least its lots have 0, 1, 2, 3, 4 fail entries after cutoff:
// the refusal's number, 0 where it is done.
#[unsafe(no_mangle)]
pub extern "C" fn day_market_fails(n: u32, m: u32, delivered: &[u32], counts: &mut [u32; 5]) -> u32
    ensures { counted result counts.new ≡ market_fails n m delivered.now }
{
    match listing::day_market_fails(n, m, delivered) {
        Ok(numbers) => {
            *counts = numbers;
            0
        }
        Err(refusal) => {
            *counts = [0; 5];
            refusal.number()
        }
    }
}
