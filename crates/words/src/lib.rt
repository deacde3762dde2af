// Words of records and of the tape: made of their fields, and taken apart.
#![tactic(auto)]

ghost use Rattle.std.specs.Prelude.{◌≡◌, ◌∷◌, ◌+◌, ◌≤◌, ◌<◌, ◌^◌, length, drop};
ghost use Rattle.rules.specs.Records.{kind_bits, in_field, of_field, head_word, lots_word};
ghost use Rattle.words.specs.Fits.{bits_of, place_of, HeadFits, PartFits};

// A field of a word: each word's kind; a head's issue, from (or the only account) and to; the lots of a kind 8 word; a
// roll's days and rate; a price or an accrued amount of a kind 9 word; a mark; the day of a turn.
#[derive(Clone, Copy, Drop)]
pub enum Field {
    Kind,
    Issue,
    From,
    To,
    Lots,
    Days,
    Rate,
    Quote,
    Mark,
    Day,
}

impl Field {
    // Above how many bits it lies, and how many it has.
    fn place(self) -> (u32, u32)
        ensures { result ≡ place_of self }
    {
        match self {
            Field::Kind => (28, 4),
            Field::Issue => (24, 4),
            Field::From => (18, 6),
            Field::To => (12, 6),
            Field::Lots => (0, 28),
            Field::Days => (24, 4),
            Field::Rate => (10, 14),
            Field::Quote => (0, 18),
            Field::Mark => (0, 1),
            Field::Day => (0, 16),
        }
    }

    // What it holds of a word.
    pub fn of(self, w: u32) -> u32
        ensures { result ≡ of_field (bits_of self) w }
    {
        let (shift, width) = self.place();
        w / (1 << shift) % (1 << width)
    }
}

// A word of a kind, with what its other bits hold.
pub fn word(kind: u32, rest: u32) -> u32
    requires { (kind < 2 ^ 4) × (rest < 2 ^ 28) }
    ensures { result ≡ in_field kind_bits kind + rest }
{
    kind * 268435456 + rest
}

// The head of a record or an instruction: kind in bits 31..28, issue in 27..24, from (or the only
// account) in 23..18, to in 17..12, the rest 0.
pub fn head(kind: u32, issue: u32, from: u32, to: u32) -> u32
    requires { HeadFits kind issue from to }
    ensures { result ≡ head_word kind issue from to }
{
    word(kind, issue * 16777216 + from * 262144 + to * 4096)
}

// The kind 8 word that follows a head, with lots in bits 27..0.
pub fn lots_word(x: u32) -> u32
    requires { x < 2 ^ 28 }
    ensures { result ≡ lots_word x }
{
    word(8, x)
}

// A record at the front of a lent part of the output: its head, then its lots; words after them keep
// their content.
pub fn record(part: &mut [u32], kind: u32, issue: u32, from: u32, to: u32, lots: u32)
    requires { PartFits part.old kind issue from to lots }
    ensures { part.new ≡ head_word kind issue from to ∷ lots_word lots ∷ drop 2 part.old }
{
    part[0] = head(kind, issue, from, to);
    part[1] = lots_word(lots);
}
