// Plain numbers as instructions, and back: C hands an instruction over as five numbers, and what lies below takes an
// `Instruction`.
ghost use Rattle.std.specs.Prelude.{◌≡◌};
ghost use Rattle.desk.specs.Fields.{is_kind, instruction_of, instruction_at, fields_of};

use rules::Instruction;

// Is there an instruction of this kind?
pub fn is_kind(kind: u32) -> bool
    ensures { result ≡ is_kind kind }
{
    matches!(kind, 1..=7 | 13..=14)
}

// The instruction of a kind of 1 to 7, 13 or 14 and its fields.
pub fn instruction_of(kind: u32, a: u32, b: u32, c: u32, d: u32) -> Instruction
    ensures { result ≡ instruction_of kind a b c d }
{
    match kind {
        1 => Instruction::Trade(a, b, c, d),
        2 => Instruction::Deliver(a, b, c),
        3 => Instruction::Resolve(a, b, c),
        4 => Instruction::PairOff(a, b),
        5 => Instruction::Close,
        6 => Instruction::Cutoff,
        7 => Instruction::Roll(a, b),
        13 => Instruction::Mark(a, b),
        _ => Instruction::Turn(a),
    }
}

// The instruction of a kind and its fields, where there is one of this kind.
pub fn instruction_at(kind: u32, a: u32, b: u32, c: u32, d: u32) -> Option<Instruction>
    ensures { result ≡ instruction_at kind a b c d }
{
    if !is_kind(kind) {
        return None;
    }
    Some(instruction_of(kind, a, b, c, d))
}

// The kind of an instruction and its fields, 0 where there is none.
pub fn fields(x: Instruction) -> [u32; 5]
    ensures { result ≡ fields_of x }
{
    match x {
        Instruction::Trade(i, f, t, n) => [1, i, f, t, n],
        Instruction::Deliver(i, a, n) => [2, i, a, n, 0],
        Instruction::Resolve(i, a, n) => [3, i, a, n, 0],
        Instruction::PairOff(i, a) => [4, i, a, 0, 0],
        Instruction::Close => [5, 0, 0, 0, 0],
        Instruction::Cutoff => [6, 0, 0, 0, 0],
        Instruction::Roll(days, rate) => [7, days, rate, 0, 0],
        Instruction::Mark(i, m) => [13, i, m, 0, 0],
        Instruction::Turn(day) => [14, day, 0, 0, 0],
    }
}
