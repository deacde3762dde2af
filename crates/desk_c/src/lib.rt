// What a host in C asks without a book, in plain numbers: value and charge of lots, and the tape's reader and writer. The
// number returned is the refusal's, 0 where it is done. Each call is that of the library desk, with the same contract.
//
// uint32_t day_value(uint32_t lots, uint32_t price, uint32_t accrued, uint64_t *yen);
// uint32_t day_charge(uint32_t lots, uint32_t price, uint32_t days, uint32_t rate, uint32_t accrued, uint64_t *yen);
//   Yen rounded down, 0 on a refusal.
//
// uint32_t day_read(const uint32_t *words, size_t, uint32_t instruction[5], size_t *count);
//   Reads the instruction that begins at the first word: kind, a, b, c, d, and its word count. Refused by
//   13 and 14, with 0 in every place.
//
// void day_quotes(const uint32_t *words, size_t, uint32_t quotes[32]);
//   The quotes in the words after a roll's head, sixteen prices and then sixteen accrued amounts, 0 where a
//   word is missing.
//
// uint32_t day_write(uint32_t kind, uint32_t a, uint32_t b, uint32_t c, uint32_t d,
//     const uint32_t *quotes, size_t, uint32_t *out, size_t, size_t *count);
//   Writes an instruction, with the quotes of a roll; count is that of the words written, 0 on a refusal.
//   Refused by 1 (an output of fewer than 33 words) and 15, which is also the answer to a kind that is none.
#![tactic(auto)]

ghost use Rattle.std.specs.Prelude.{◌≡◌, replicate};
ghost use Rattle.std.proofs.lemmas.List.Edits.{sets};
ghost use Rattle.rules.specs.Calls.{value, charge};
ghost use Rattle.rules.specs.Tape.{read_of, read_answer, quotes_of};
ghost use Rattle.desk.specs.Fields.{instruction_of};
ghost use Rattle.desk.specs.Plain.{Plain};
ghost use Rattle.desk.specs.Words.{ReadIs, day_written, plainly_written};

use desk::reading;
use rules::QUOTE_COUNT;

// The value of lots at a price and an accrued amount: 0 with the yen, or 7 (lots) or 11 (price, accrued) with 0 yen.
#[unsafe(no_mangle)]
pub extern "C" fn day_value(lots: u32, price: u32, accrued: u32, yen: &mut u64) -> u32
    ensures { Plain (value lots price accrued) result yen.new }
{
    desk::day_value(lots, price, accrued, yen)
}

// The charge on lots at a price and an accrued amount over days at a rate: 0 with the yen, or 7 (lots) or 11 (the other numbers)
// with 0 yen.
#[unsafe(no_mangle)]
pub extern "C" fn day_charge(
    lots: u32,
    price: u32,
    days: u32,
    rate: u32,
    accrued: u32,
    yen: &mut u64,
) -> u32
    ensures { Plain (charge lots price days rate accrued) result yen.new }
{
    desk::day_charge(lots, price, days, rate, accrued, yen)
}

// Reads the instruction that begins at the first word.
#[unsafe(no_mangle)]
pub extern "C" fn day_read(words: &[u32], instruction: &mut [u32; 5], count: &mut usize) -> u32
    ensures { ReadIs (read_answer (read_of words.now)) result instruction.new count.new }
{
    reading::day_read(words, instruction, count)
}

// The quotes in the words after a roll's head, sixteen prices and then sixteen accrued amounts, 0 where a word is missing.
#[unsafe(no_mangle)]
pub extern "C" fn day_quotes(words: &[u32], quotes: &mut [u32; QUOTE_COUNT])
    ensures { quotes.new ≡ sets (replicate 32 0) 0 (quotes_of words.now) }
{
    reading::day_quotes(words, quotes)
}

// Writes an instruction, with the quotes of a roll.
#[unsafe(no_mangle)]
pub extern "C" fn day_write(
    kind: u32,
    a: u32,
    b: u32,
    c: u32,
    d: u32,
    quotes: &[u32],
    out: &mut [u32],
    count: &mut usize,
) -> u32
    ensures { plainly_written result count.new out.new ≡ day_written kind (instruction_of kind a b c d) quotes.now out.old }
{
    reading::day_write(kind, a, b, c, d, quotes, out, count)
}
