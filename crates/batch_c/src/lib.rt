// Instructions of a tape's words on a book, for hosts in C, in plain numbers and lent columns. The call is that of the library
// `batch`, with the same contract. C lends nine columns, each a pointer and a length (size_t), in this order, so they are
// parameters here; the words and the outputs are lent in the same way.
//
// struct day_ran day_run(const uint32_t *words, size_t, struct day_state,
//     int32_t *nets, size_t, uint32_t *delivered, size_t, uint32_t *lifts, size_t, int64_t *charges, size_t,
//     uint8_t *issues, size_t, uint8_t *froms, size_t, uint8_t *tos, size_t,
//     uint32_t *lots, size_t, uint16_t *days, size_t, uint64_t *answers, size_t, uint32_t *out, size_t);
//   struct day_ran { uint32_t refusal; size_t answered; size_t used; size_t written; struct day_state state; };
//   The instructions that the words are, each made in place as day_call makes it, one after another, the refused
//   ones too. Refused by 1 (fewer than 3 numbers in answers, or fewer than 4,096 words in out) and 2, once: then nothing is
//   changed. Else it stops at the end of the words (0, all of them used), where the reader refuses (13, 14), or where
//   answers or out have no room for another (0, not all of them used). Of each instruction answers has three
//   numbers: refusal, count, lots cancelled; out has the records of all of them, one behind the other.
#![tactic(auto)]

ghost use Rattle.book.specs.States.{columns};
ghost use Rattle.batch.specs.Batch.{DayRanIn};

use batch::DayRan;
use columns::LentColumns;
use host::DayState;

// The instructions of the words on a host's book.
#[unsafe(no_mangle)]
pub extern "C" fn day_run(
    words: &[u32],
    state: DayState,
    nets: &mut [i32],
    delivered: &mut [u32],
    lifts: &mut [u32],
    charges: &mut [i64],
    issues: &mut [u8],
    froms: &mut [u8],
    tos: &mut [u8],
    lots: &mut [u32],
    days: &mut [u16],
    answers: &mut [u64],
    out: &mut [u32],
) -> DayRan
    ensures { DayRanIn words state answers out result (columns nets delivered lifts charges issues froms tos lots days) }
{
    let mut columns = LentColumns {
        nets,
        delivered,
        lifts,
        charges,
        issues,
        froms,
        tos,
        lots,
        days,
    };
    batch::day_run(words, state, &mut columns, answers, out)
}
