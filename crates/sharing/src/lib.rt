// A fail's lots shared out in the drawn order: reports facing the failing account first, then the others.
// The draw, the fail and the failing account are the definition's own arguments, one by one.
#![tactic(auto)]

ghost use Rattle.std.specs.Prelude.{◌≡◌, ◌++◌, ◌≤◌, length, drop, replicate};
ghost use Rattle.reports.specs.Allotting.{allotment};
ghost use Rattle.sharing.specs.Steps.{in_group, Drawn, allot_group, shared_out};

// the reports facing the failing account, and the others
#[derive(Clone, Copy, PartialEq, Eq, Drop)]
pub enum Group {
    Facing,
    Others,
}

// Does a report of this size and counterparty belong to the group?
fn in_group(group: Group, failing: u32, size: u32, party: u32) -> bool
    ensures { result ≡ in_group group failing size party }
{
    if size == 0 {
        return false;
    }
    match group {
        Group::Facing => party == failing,
        Group::Others => party != failing,
    }
}

// The group's reports take lots in the drawn order, each up to its own size; what is left is returned.
fn allot(
    group: Group,
    failing: u32,
    sizes: &[u32],
    parties: &[u32],
    draw: &[u32],
    left: u32,
    out: &mut [u32],
) -> u32
    requires { Drawn sizes.now parties.now draw.now out.old }
    ensures { allotment result out.new ≡ allot_group group failing sizes.now parties.now draw.now (allotment left out.old) }
{
    let mut rest = left;
    for number in draw {
        let k = *number as usize;
        if in_group(group, failing, sizes[k], parties[k]) {
            let share = rest.min(sizes[k]);
            out[k] = share;
            rest -= share;
        }
    }
    rest
}

// 0 at the first n places.
fn clear(n: usize, out: &mut [u32])
    requires { n ≤ length out.old }
    ensures { out.new ≡ replicate n 0 ++ drop n out.old }
{
    out[..n].fill(0);
}

// The reports facing the failing account take lots first, then the others; each report has its size at the place of its
// number.
pub fn share(failing: u32, sizes: &[u32], parties: &[u32], draw: &[u32], fail: u32, out: &mut [u32])
    requires { Drawn sizes.now parties.now draw.now out.old }
    ensures { out.new ≡ shared_out failing sizes.now parties.now draw.now fail out.old }
{
    clear(sizes.len(), out);
    let left = allot(Group::Facing, failing, sizes, parties, draw, fail, out);
    allot(Group::Others, failing, sizes, parties, draw, left, out);
}
