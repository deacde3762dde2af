// One entry met in a lent slice of entry structs, for a host in C: the call of the library `entries`, with the same contract.
#![tactic(auto)]

ghost use Rattle.entries.specs.Meet.{Met};

use rules::Entry;

// Entry i falls by `lots`, or by all it has where that is less. Answers the lots it fell by; where
// there is no entry i, 0, and nothing changes.
#[unsafe(no_mangle)]
pub extern "C" fn entry_meet(entries: &mut [Entry], i: usize, lots: u32) -> u32
    ensures { Met entries.old i lots result entries.new }
{
    entries::entry_meet(entries, i, lots)
}
