// The scan of nets and delivered lots for soundness: in bounds, in balance, no more delivered than owed, and even where
// an issue is marked, entries' lots too.
#![tactic(auto)]

ghost use Rattle.std.specs.Prelude.{◌≡◌, ℕ, true, ◌≤◌, ◌<◌, false, length, get_or, nat_abs};
ghost use Rattle.rules.specs.Measures.{most_lots};
ghost use Rattle.rules.specs.Book.{CellLengths, all, is_zero, balanced, within_size, within_owed, is_marked, is_even, cells_even};
ghost use Rattle.balancing.specs.Scan.{all_balanced, nets_sound, RowLengths, RowWithin};
ghost use Rattle.balancing.specs.EvenScan.{row_even, all_cells, pairs_even, all_lots};

use book::{owed, within};
use rules::{ACCOUNT_COUNT, ISSUE_COUNT, State};

// the last issue, as the ledger's column has it
pub const LAST_ISSUE: u8 = 15;

// how many numbers a column of issues can hold
const ISSUE_NUMBERS: usize = 256;

// A number of a column, of any width.
pub trait Number: Copy {
    ghost value: { Self → ℕ };

    fn is_zero(self) -> bool
        ensures { result ≡ is_zero (value self) };
}

impl Number for u8 {
    ghost value = { λ n. n };

    fn is_zero(self) -> bool {
        self == 0
    }
}

impl Number for u16 {
    ghost value = { λ n. n };

    fn is_zero(self) -> bool {
        self == 0
    }
}

impl Number for u32 {
    ghost value = { λ n. n };

    fn is_zero(self) -> bool {
        self == 0
    }
}

// Are all 0?
pub fn zeros<N: Number>(xs: &[N]) -> bool
    ensures { result ≡ all (λ n. is_zero (N.value n)) xs.now }
{
    let mut good = true;
    for x in xs {
        good &= x.is_zero();
    }
    good
}

// Does each net lie in −20,000,000..20,000,000?
fn nets_within(nets: &[i32]) -> bool
    ensures { result ≡ all (within_size most_lots) nets.now }
{
    let mut good = true;
    for n in nets {
        good &= within(*n);
    }
    good
}

// Is no more delivered of an issue than owed? Where nothing is delivered the nets are not looked at.
fn row_owed<'a>(net: &'a [i32], delivered: &'a [u32]) -> bool
    requires { RowLengths net.now delivered.now }
    ensures { result ≡ within_owed net.now delivered.now }
{
    if zeros(delivered) {
        return true;
    }
    let mut good = true;
    for (n, d) in net.iter().zip(delivered) {
        good &= *d <= owed(*n);
    }
    good
}

// The same of each issue.
fn rows_owed<'a>(nets: &'a [i32], delivered: &'a [u32]) -> bool
    requires { CellLengths nets.now delivered.now }
    ensures { result ≡ within_owed nets.now delivered.now }
{
    let mut good = true;
    // by place, and not by chunks: a row is so defined, and the zip of two chunked columns is no plainer
    for i in 0..ISSUE_COUNT {
        let s = i * ACCOUNT_COUNT;
        let e = s + ACCOUNT_COUNT;
        good &= row_owed(&nets[s..e], &delivered[s..e]);
    }
    good
}

// Do an issue's nets sum to 0? They are in bounds, so no sum of them wraps.
fn row_balanced(net: &[i32]) -> bool
    requires { RowWithin net.now }
    ensures { result ≡ balanced net.now }
{
    let mut sum: i32 = 0;
    for n in net {
        sum += *n;
    }
    sum == 0
}

// The same of each issue.
fn rows_balanced(nets: &[i32]) -> bool
    requires { (length nets.now ≡ 1024) × (all (within_size most_lots) nets.now ≡ true) }
    ensures { result ≡ all_balanced nets.now }
{
    let mut good = true;
    // by place, as a row is defined
    for i in 0..ISSUE_COUNT {
        let s = i * ACCOUNT_COUNT;
        let e = s + ACCOUNT_COUNT;
        good &= row_balanced(&nets[s..e]);
    }
    good
}

// Is each net in bounds, are the nets of each issue in balance, and is no more delivered than owed? Every place of a
// column is looked at: so the compiler compares many at once.
pub fn nets_sound<'a>(nets: &'a [i32], delivered: &'a [u32]) -> bool
    requires { CellLengths nets.now delivered.now }
    ensures { result ≡ nets_sound nets.now delivered.now }
{
    if !nets_within(nets) {
        return false;
    }
    let balance = rows_balanced(nets);
    let owing = rows_owed(nets, delivered);
    balance & owing
}

// Is no issue marked?
fn none_marked(s: State) -> bool
    ensures { result ≡ all is_zero s.marks }
{
    let marks = s.marks;
    zeros(&marks)
}

// Is a net even?
fn net_even(n: i32) -> bool
    ensures { result ≡ is_even (nat_abs n) }
{
    n.unsigned_abs() % 2 == 0
}

// Are the nets and the delivered lots of an issue even?
#[tactic(auto, unfolding(crate::specs::EvenScan::row_even))]
fn row_even<'a>(net: &'a [i32], delivered: &'a [u32]) -> bool
    requires { RowLengths net.now delivered.now }
    ensures { result ≡ row_even net.now delivered.now }
{
    let mut good = true;
    for n in net {
        good &= net_even(*n);
    }
    for d in delivered {
        good &= *d % 2 == 0;
    }
    good
}

// Are they, if the issue is marked?
#[tactic(auto, unfolding(rules::specs::Book::cells_even, crate::specs::EvenScan::row_even))]
fn issue_even<'a>(s: State, nets: &'a [i32], delivered: &'a [u32], i: usize) -> bool
    requires { CellLengths nets.now delivered.now × (i < 16) }
    ensures { result ≡ cells_even s.marks nets.now delivered.now i }
{
    if s.marks[i] == 0 {
        return true;
    }
    let b = i * ACCOUNT_COUNT;
    let e = b + ACCOUNT_COUNT;
    row_even(&nets[b..e], &delivered[b..e])
}

// The same of each issue. Where none is marked there is nothing to look at.
pub fn cells_even<'a>(s: State, nets: &'a [i32], delivered: &'a [u32]) -> bool
    requires { CellLengths nets.now delivered.now }
    ensures { result ≡ all_cells s.marks nets.now delivered.now }
{
    if none_marked(s) {
        return true;
    }
    let mut good = true;
    for i in 0..ISSUE_COUNT {
        good &= issue_even(s, nets, delivered, i);
    }
    good
}

// For each number that a column of issues can hold, whether an issue of this number is marked: above 15 none is.
fn marked(marks: &[u8]) -> [bool; ISSUE_NUMBERS]
    requires { length marks.now ≡ 16 }
    ensures { (length result ≡ 256) × ((i : ℕ) → get_or result i false ≡ is_marked marks.now i) }
{
    let mut marked = [false; ISSUE_NUMBERS];
    for i in 0..ISSUE_COUNT {
        marked[i] = 0 < marks[i];
    }
    marked
}

// Are the lots of each entry even, if its issue is marked? Each mark is looked up in a table, with no branch, for speed.
fn lots_even<'a>(marks: &'a [u8], issues: &'a [u8], lots: &'a [u32]) -> bool
    requires { (length marks.now ≡ 16) × (length issues.now ≡ length lots.now) }
    ensures { result ≡ pairs_even marks.now issues.now lots.now }
{
    let marked = marked(marks);
    let mut odd = false;
    for (i, x) in issues.iter().zip(lots) {
        odd |= marked[*i as usize] & (*x % 2 != 0);
    }
    !odd
}

// The same of all entries. Where no issue is marked there is nothing to look at.
pub fn entries_even<'a>(s: State, issues: &'a [u8], lots: &'a [u32]) -> bool
    requires { (s.entries ≤ length issues.now) × (s.entries ≤ length lots.now) }
    ensures { result ≡ all_lots s.marks s.entries issues.now lots.now }
{
    if none_marked(s) {
        return true;
    }
    let marks = s.marks;
    let n = s.entries;
    lots_even(&marks, &issues[..n], &lots[..n])
}
