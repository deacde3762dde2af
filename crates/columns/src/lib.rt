// The nine columns of a book, which travel together: only read, or lent to be changed.
#![tactic(auto)]

ghost use Rattle.std.specs.Prelude.{◌≡◌};
ghost use Rattle.rules.specs.declared.State.{State};
ghost use Rattle.columns.specs.Books.{shared_book, lent_book, ledger_in};

// The columns, only read.
#[derive(Clone, Copy, Drop)]
pub struct SharedColumns<'a> {
    pub nets: &'a [i32],
    pub delivered: &'a [u32],
    pub lifts: &'a [u32],
    pub charges: &'a [i64],
    pub issues: &'a [u8],
    pub froms: &'a [u8],
    pub tos: &'a [u8],
    pub lots: &'a [u32],
    pub days: &'a [u16],
}

// Those of the ledger, only read.
#[derive(Clone, Copy, Drop)]
pub struct SharedLedger<'a> {
    pub issues: &'a [u8],
    pub froms: &'a [u8],
    pub tos: &'a [u8],
    pub lots: &'a [u32],
    pub days: &'a [u16],
}

// The columns, lent to be changed.
#[derive(Drop)]
pub struct LentColumns<'a> {
    pub nets: &'a mut [i32],
    pub delivered: &'a mut [u32],
    pub lifts: &'a mut [u32],
    pub charges: &'a mut [i64],
    pub issues: &'a mut [u8],
    pub froms: &'a mut [u8],
    pub tos: &'a mut [u8],
    pub lots: &'a mut [u32],
    pub days: &'a mut [u16],
}

// The lent columns, only read.
pub fn shared<'a>(columns: &'a LentColumns<'a>) -> SharedColumns<'a>
    ensures { (s : State) → shared_book s result ≡ lent_book s columns.now }
{
    SharedColumns {
        nets: &*columns.nets,
        delivered: &*columns.delivered,
        lifts: &*columns.lifts,
        charges: &*columns.charges,
        issues: &*columns.issues,
        froms: &*columns.froms,
        tos: &*columns.tos,
        lots: &*columns.lots,
        days: &*columns.days,
    }
}

// The ledger's columns among the nine.
pub fn ledger_of<'a>(columns: SharedColumns<'a>) -> SharedLedger<'a>
    ensures { result ≡ ledger_in columns.entry }
{
    SharedLedger {
        issues: columns.issues,
        froms: columns.froms,
        tos: columns.tos,
        lots: columns.lots,
        days: columns.days,
    }
}
