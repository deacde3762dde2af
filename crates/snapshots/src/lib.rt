// Definitions and theorems of a snapshot: a book as words, and the book of words. Of code the places of its columns stand
// here.
#![tactic(auto)]

ghost use Rattle.std.specs.Prelude.{◌≡◌};
ghost use Rattle.snapshots.specs.Faults.{fault_number};

// the words of a snapshot
pub const WORDS: usize = 6583;

// where its columns begin: marks, nets, delivered lots, lifts, charges, entries but for their lots, lots of entries
pub const MARKS: usize = 7;

pub const NETS: usize = 23;

pub const DELIVERED: usize = 1047;

pub const LIFTS: usize = 2071;

pub const CHARGES: usize = 2359;

pub const ENTRIES: usize = 2487;

pub const LOTS: usize = 4535;

// the number of the format
pub const VERSION: u32 = 1399734321;

// Why words are no snapshot: the question that is answered 'no' first.
#[derive(Clone, Copy, PartialEq, Eq, Drop)]
pub enum Fault {
    // another number of words
    Length,
    // another version
    Version,
    // another checksum
    Checksum,
    // a number does not fit its field
    Field,
    // the book is not sound
    Unsound,
}

impl Fault {
    // the number of the question
    pub fn number(self) -> u32
        ensures { result ≡ fault_number self }
    {
        match self {
            Fault::Length => 1,
            Fault::Version => 2,
            Fault::Checksum => 3,
            Fault::Field => 4,
            Fault::Unsound => 5,
        }
    }
}
