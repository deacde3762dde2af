// The types of the settlement-day book: measures, book, answers, instructions; and its limits, each by the name that it
// has in specs/Measures. The two functions here give a refusal's number; what all of it means is in specs/, which reads
// beside document 01 from top to bottom.

// 16 issues, 0 to 15
#![tactic(auto)]

ghost use Rattle.std.specs.Prelude.{◌≡◌};
ghost use Rattle.rules.specs.Refusals.{number_of, number_in};

pub const ISSUE_COUNT: usize = 16;

pub const LAST_ISSUE: u32 = 15;

// 64 netting accounts, 0 to 63; as a count of places, and as a factor of words
pub const ACCOUNT_COUNT: usize = 64;

pub const ACCOUNTS: u32 = 64;

pub const LAST_ACCOUNT: u32 = 63;

// a number for each issue and account
pub const CELL_COUNT: usize = 1024;

// the lots of a full unit
pub const UNIT_LOTS: u32 = 100_000;

// the most lots of a trade, a delivery or an entry
pub const MOST_LOTS: u32 = 20_000_000;

// the places of the ledger
pub const MOST_ENTRIES: usize = 2048;

// roll's quotes: sixteen prices, sixteen accrued amounts
pub const QUOTE_COUNT: usize = 32;

// the most lifts of an issue, the words that stand for them, and those of all issues
pub const MOST_LIFTS: u32 = 8;

pub const LIFT_WORDS: usize = 18;

pub const LIFT_CELLS: usize = 288;

// participants are 0 to 15, the operator is 16
pub const LAST_PARTICIPANT: u32 = 15;

pub const OPERATOR: u32 = 16;

// the words of an output, and of the tape writer's
pub const OUTPUT_WORDS: usize = 4096;

pub const TAPE_WORDS: usize = 33;

// A quantity of bonds, in lots of 50,000 yen face.
#[derive(Clone, Copy, Drop)]
pub struct Lots(pub u32);

// Money, in yen.
#[derive(Clone, Copy, Drop)]
pub struct Yen(pub u64);

// Why a call is refused: the question that is answered 'no' first.
#[derive(Clone, Copy, PartialEq, Eq, Drop)]
pub enum Refusal {
    // the output has too few words
    Output,
    // the book is not sound
    Unsound,
    // another phase than the call's
    Phase,
    // no such issue
    Issue,
    // no such account
    Account,
    // from and to are the same account
    SameAccount,
    // lots out of range
    Lots,
    // a net would pass its limit
    Net,
    // the account does not owe that many lots
    Owed,
    // too many entries
    Entries,
    // days, rate, a price or an accrued amount out of range
    Terms,
    // the last day
    Day,
    // the tape does not hold the whole instruction
    Cut,
    // wrong kind or unused bits
    Word,
    // a field does not fit its bits
    Field,
    // no such unit, or it is handed
    Unit,
    // the ticket is not what asking gives now
    Ticket,
    // eight lifts stand
    Lifts,
    // odd lots in a marked issue
    OddLots,
    // the issue has a net or an entry
    Used,
    // not each report number just once
    Draw,
    // too many reports, or no such sub-account
    Reports,
    // the fail is more than the eligible lots
    Eligible,
    // participants or amounts out of range
    Amounts,
    // the funds are more than all bases
    Funds,
    // not after today, or the new order is in force
    Turn,
    // the caller has not the right
    Right,
}

impl Refusal {
    // the number that the paper gives it
    pub fn number(self) -> u32
        ensures { result ≡ number_of self }
    {
        match self {
            Refusal::Output => 1,
            Refusal::Unsound => 2,
            Refusal::Phase => 3,
            Refusal::Issue => 4,
            Refusal::Account => 5,
            Refusal::SameAccount => 6,
            Refusal::Lots => 7,
            Refusal::Net => 8,
            Refusal::Owed => 9,
            Refusal::Entries => 10,
            Refusal::Terms => 11,
            Refusal::Day => 12,
            Refusal::Cut => 13,
            Refusal::Word => 14,
            Refusal::Field => 15,
            Refusal::Unit => 16,
            Refusal::Ticket => 17,
            Refusal::Lifts => 18,
            Refusal::OddLots => 19,
            Refusal::Used => 20,
            Refusal::Draw => 21,
            Refusal::Reports => 22,
            Refusal::Eligible => 23,
            Refusal::Amounts => 24,
            Refusal::Funds => 25,
            Refusal::Turn => 26,
            Refusal::Right => 27,
        }
    }
}

// the number in an answer, 0 where it is done: the C interface has a number here
pub fn number_in<T: Drop>(answer: Result<T, Refusal>) -> u32
    ensures { result ≡ number_in answer }
{
    match answer {
        Ok(_) => 0,
        Err(refusal) => refusal.number(),
    }
}

#[derive(Clone, Copy, PartialEq, Eq, Drop)]
pub enum Phase {
    Taking,
    Settling,
    Cut,
}

// What of a book stands beside its columns: the day, the phase, the number of the ledger's entries, the
// first day on which full units are dealt in turn (0 where none is named, as the C interface has it), and of each issue its
// mark: 0, or another number where it is marked.
#[derive(Clone, Copy, Drop)]
pub struct State {
    pub day: u16,
    pub phase: Phase,
    pub entries: usize,
    pub turn: u32,
    pub marks: [u8; ISSUE_COUNT],
}

// The book: its state and nine columns. Nets and delivered lots of issue i and account a stand at
// i * 64 + a. Of issue i the words of lifts from i * 18 on are: the number of lifts, the count of the
// day's accepted deliveries and lifts, and of each lift its old and its new place. The ledger's entries
// are the first `entries` of five columns: issue, from, to, lots, day.
#[derive(Clone, Copy, Drop)]
pub struct Book {
    pub state: State,
    pub nets: [i32; CELL_COUNT],
    pub delivered: [u32; CELL_COUNT],
    pub lifts: [u32; LIFT_CELLS],
    pub charges: [i64; ACCOUNT_COUNT],
    pub issues: [u8; MOST_ENTRIES],
    pub froms: [u8; MOST_ENTRIES],
    pub tos: [u8; MOST_ENTRIES],
    pub lots: [u32; MOST_ENTRIES],
    pub days: [u16; MOST_ENTRIES],
}

// A fail entry of the ledger, laid out as in C for a host that keeps its entries as structs.
#[repr(C)]
#[derive(Clone, Copy, Drop)]
pub struct Entry {
    pub issue: u8,
    pub from: u8,
    pub to: u8,
    pub lots: u32,
    pub day: u16,
}

// What a unit's settlement priority goes by: of a full unit its account and that account's net, of a
// small one its account and its own lots.
#[derive(Clone, Copy, Drop)]
pub enum Priority {
    Full(u32, u32),
    Small(u32, u32),
}

// A unit of an issue: its account and its lots.
#[derive(Clone, Copy, PartialEq, Eq, Drop)]
pub struct Unit {
    pub account: u32,
    pub lots: u32,
}

// A ticket for a lift: issue and unit number, and what stands there: account and lots of the unit, the
// day, and the count of that day's accepted deliveries and lifts in the issue.
#[derive(Clone, Copy, PartialEq, Eq, Drop)]
pub struct Ticket {
    pub issue: u32,
    pub unit: u32,
    pub account: u32,
    pub lots: u32,
    pub day: u32,
    pub count: u32,
}

// Who calls, laid out as in C for a host that passes it by value: a participant, 0 to 15, or the operator,
// 16, any other number having no right; and of each account its owner, 0 to 15 a participant, any other
// number none.
#[repr(C)]
#[derive(Clone, Copy, Drop)]
pub struct Caller {
    pub number: u32,
    pub owners: [u8; ACCOUNT_COUNT],
}

// What reading an account shows: its net, its charge, and the entry where it has that many.
#[derive(Clone, Copy, Drop)]
pub struct Seen {
    pub net: i32,
    pub charge: i64,
    pub entry: Option<Entry>,
}

// An instruction of the tape. Roll's sixteen prices and sixteen accrued amounts stand beside it.
#[derive(Clone, Copy, Drop)]
pub enum Instruction {
    // issue, from, to, lots
    Trade(u32, u32, u32, u32),
    // issue, account, lots
    Deliver(u32, u32, u32),
    // issue, account, lots
    Resolve(u32, u32, u32),
    // issue, account
    PairOff(u32, u32),
    Close,
    Cutoff,
    // days, rate
    Roll(u32, u32),
    // issue, mark
    Mark(u32, u32),
    // the first day on which full units are dealt in turn
    Turn(u32),
}

// What a word of the tape is taken as that is not wrong: the head of an instruction, with the kind of the words that
// follow it and the count of all its words; or a word of that kind after a head.
#[derive(Clone, Copy, Drop)]
pub enum Word {
    Head(Instruction, u32, usize),
    After(u32),
}

// What a line of a run names: a call, or the tape where the reader refused.
#[derive(Clone, Copy, PartialEq, Eq, Drop)]
pub enum Name {
    Trade,
    Deliver,
    Resolve,
    PairOff,
    Close,
    Cutoff,
    Roll,
    Mark,
    Turn,
    Tape,
}

// A line of a run: the index of the instruction's first word, the name, the refusal's number
// (0: done), the count of records (for pair-off, steps). A line prints all four, 0 too, so the number is no Option.
#[derive(Clone, Copy, Drop)]
pub struct Line {
    pub index: u64,
    pub name: Name,
    pub refusal: u32,
    pub count: usize,
}
