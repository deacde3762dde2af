// One entry met in a lent slice of entry structs.
#![tactic(auto)]

ghost use Rattle.std.specs.Prelude.{◌≡◌, ◌-◌, min};
ghost use Rattle.entries.specs.Meet.{with_lots, Met};

use rules::Entry;

// Entry i falls by `lots`, or by all it has where that is less. Answers the lots it fell by; where
// there is no entry i, 0, and nothing changes.
pub fn entry_meet(entries: &mut [Entry], i: usize, lots: u32) -> u32
    ensures { Met entries.old i lots result entries.new }
{
    if entries.len() <= i {
        return 0;
    }
    let least = entries[i].lots.min(lots);
    entries[i].lots -= least;
    least
}

// An entry by value, met in a slice of one: callers above have plain parameters.
pub fn met(e: Entry, lots: u32) -> Entry
    ensures { result ≡ with_lots e (e.lots - min e.lots lots) }
{
    let mut one = [e];
    entry_meet(&mut one, 0, lots);
    one[0]
}
