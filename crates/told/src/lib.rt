// What is told of a unit: definitions and worked days.

// What is told of a unit: handed; waiting, with so many lots; partly failed, with the lots lacking; wholly
// failed.
#![tactic(auto)]

#[derive(Clone, Copy, PartialEq, Eq, Drop)]
pub enum Told {
    Handed,
    Waiting(u32),
    PartlyFailed(u32),
    WhollyFailed,
}
