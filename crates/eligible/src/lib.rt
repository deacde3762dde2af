// The lots that each report of a trust account can take.
#![tactic(auto)]

ghost use Rattle.std.specs.Prelude.{◌≡◌};
ghost use Rattle.reports.specs.Reports.{net_receiver, size_of};
ghost use Rattle.eligible.specs.Steps.{unfaced, Few, OneOf, Sizable, Sized, counted_for};

// The lots of a report that counts for the sub-account s, 0 of any other.
fn counted(s: u32, earlier: u8, sub: u32, x: u32) -> u32
    ensures { result ≡ counted_for s earlier sub x }
{
    if earlier == 0 && sub == s { x } else { 0 }
}

// Does the sub-account receive more than it delivers, set off without the earlier fails?
fn receives(subs: &[u32], lots: &[i32], earlier: &[u8], s: u32) -> bool
    requires { Few subs.now lots.now earlier.now }
    ensures { result ≡ net_receiver (unfaced subs.now lots.now earlier.now) s }
{
    let mut received: u64 = 0;
    let mut delivered: u64 = 0;
    for (k, sub) in subs.iter().enumerate() {
        let x = lots[k];
        received += counted(s, earlier[k], *sub, book::due(x)) as u64;
        delivered += counted(s, earlier[k], *sub, book::owed(x)) as u64;
    }
    delivered < received
}

// The lots that report k can take.
fn size_of(subs: &[u32], lots: &[i32], earlier: &[u8], k: usize) -> u32
    requires { OneOf subs.now lots.now earlier.now k }
    ensures { result ≡ size_of (unfaced subs.now lots.now earlier.now) k }
{
    if earlier[k] != 0 {
        return 0;
    }
    if !receives(subs, lots, earlier, subs[k]) {
        return 0;
    }
    book::due(lots[k])
}

// The lots that each report can take, at the place of its number; their sum. The reports' counterparties are not read.
pub fn sizes_of(subs: &[u32], lots: &[i32], earlier: &[u8], sizes: &mut [u32]) -> u64
    requires { Sizable subs.now lots.now earlier.now sizes.old }
    ensures { Sized (unfaced subs.now lots.now earlier.now) sizes.new result }
{
    let mut sum: u64 = 0;
    for (k, place) in sizes[..subs.len()].iter_mut().enumerate() {
        let size = size_of(subs, lots, earlier, k);
        *place = size;
        sum += size as u64;
    }
    sum
}
