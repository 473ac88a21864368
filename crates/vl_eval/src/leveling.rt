ghost use Rattle.std.specs.Prelude.{◌<◌, ◌≤◌, ◌+◌, length};
ghost use Rattle.vl_eval.specs.inner.Order.{AreLow, IsAbove, each_of};

use crate::ops::{OneOp, Op, TwoOp};

/// A number for the kind of an operation.
pub fn kind_of(op: Op) -> u64
    ensures { result < 32 }
{
    match op {
        Op::Constant(_) => 0,
        Op::One(OneOp::Extended { .. }, _) => 1,
        Op::One(OneOp::Select { .. }, _) => 2,
        Op::Two(TwoOp::Add(_), _, _) => 3,
        Op::Two(TwoOp::Subtract(_), _, _) => 4,
        Op::Two(TwoOp::Multiply(_), _, _) => 5,
        Op::Two(TwoOp::And, _, _) => 6,
        Op::Two(TwoOp::Or, _, _) => 7,
        Op::Two(TwoOp::Xor, _, _) => 8,
        Op::Two(TwoOp::Equal, _, _) => 9,
        Op::Two(TwoOp::NotEqual, _, _) => 10,
        Op::Two(TwoOp::Less(_), _, _) => 11,
        Op::Two(TwoOp::LessEqual(_), _, _) => 12,
        Op::Two(TwoOp::Both, _, _) => 13,
        Op::Two(TwoOp::Either, _, _) => 14,
        Op::One(OneOp::Negate(_), _) => 15,
        Op::One(OneOp::Invert(_), _) => 16,
        Op::One(OneOp::IsZero, _) => 17,
        Op::One(OneOp::Up { .. }, _) => 18,
        Op::One(OneOp::SignedDown { .. }, _) => 19,
        Op::Choose { .. } => 20,
        Op::Beside { .. } => 21,
        Op::Next(_) => 22,
    }
}

/// The level above that of the operation at a place; 0 for a fixed place.
fn level_above(place: usize, base: usize, levels: &[usize]) -> usize
    requires within { place < base + length levels.now }
    requires low { AreLow levels.now }
    ensures above { IsAbove base levels.now result place }
    ensures low { result ≤ length levels.now }
{
    if place < base {
        0
    } else {
        levels[place - base] + 1
    }
}

/// The greater of two levels.
fn level_above_both(left: usize, right: usize, base: usize, levels: &[usize]) -> usize
    requires left { left < base + length levels.now }
    requires right { right < base + length levels.now }
    requires low { AreLow levels.now }
    ensures left { IsAbove base levels.now result left }
    ensures right { IsAbove base levels.now result right }
    ensures low { result ≤ length levels.now }
{
    level_above(left, base, levels).max(level_above(right, base, levels))
}

/// The first level above those of the operations that an operation reads.
pub fn level_of(op: Op, base: usize, levels: &[usize]) -> usize
    requires within { each_of (λ place. place < base + length levels.now) op }
    requires low { AreLow levels.now }
    ensures above { each_of (IsAbove base levels.now result) op }
    ensures low { result ≤ length levels.now }
{
    match op {
        Op::Constant(_) => 0,
        Op::One(_, part) => level_above(part, base, levels),
        Op::Two(_, left, right) | Op::Beside { left, right, .. } => {
            level_above_both(left, right, base, levels)
        }
        Op::Choose {
            test,
            chosen,
            other,
        } => level_above_both(test, chosen, base, levels).max(level_above(other, base, levels)),
        Op::Next(register) => {
            let tests = level_above_both(register.reset, register.test, base, levels);
            tests.max(level_above_both(register.value, register.kept, base, levels))
        }
    }
}
