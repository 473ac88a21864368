//! Bits and truths.
ghost use Rattle.std.specs.Prelude.{◌≡◌, ◌≤◌, ◌<◌, ◌-◌, ◌↔◌, pos, ◌-ℤ◌};
ghost use Rattle.fx_type.specs.Conversion.{IsTruthOf};
ghost use Rattle.math_num.specs.Bits.{low_bits};
ghost use Rattle.hw_lower.specs.inner.PlanSteps.{IsAt, IsMade, IsChosen, bit_word, bit_of};

use crate::plan::{Operand, Plan, Word, choose, constant, slice, unary};
use hw_net::NetOp;

/// One bit, unsigned.
pub fn bit_word() -> Word
    ensures { result ≡ bit_word }
{
    Word {
        signed: false,
        width: 1,
    }
}

/// The bit of a place in the word.
fn bit_within(plan: &mut Plan, from: Operand, place: u8) -> Operand
    requires at { IsAt plan.old from }
    requires within { place < from.word.width }
    ensures { IsMade plan.old plan.new bit_word
        (λ numbers. numbers result.place ≡ pos (bit_of (numbers from.place) place)) result }
{
    slice(plan, from, place, place, bit_word())
}

/// The bit of a place, from 0. Past the word it is the sign, which an unsigned number has not.
pub fn bit(plan: &mut Plan, from: Operand, place: u8) -> Operand
    requires { IsAt plan.old from }
    ensures { IsMade plan.old plan.new bit_word
        (λ numbers. numbers result.place ≡ pos (bit_of (numbers from.place) place)) result }
{
    if place < from.word.width {
        return bit_within(plan, from, place);
    }
    if from.word.signed {
        return bit_within(plan, from, from.word.width - 1);
    }
    constant(plan, 0, bit_word())
}

/// The lowest bits, of which there are some: a number that is 0 exactly where they are.
pub fn lowest(plan: &mut Plan, from: Operand, count: u8) -> Operand
    requires at { IsAt plan.old from }
    requires some { 1 ≤ count }
    ensures { IsMade plan.old plan.new result.word (λ numbers.
        (numbers result.place ≡ pos 0) ↔ (low_bits count (numbers from.place) ≡ 0)) result }
{
    if count >= from.word.width {
        return from;
    }
    let word = Word {
        signed: false,
        width: count,
    };
    slice(plan, from, count - 1, 0, word)
}

/// The bit where the test isn't 0, else 0.
pub fn both(plan: &mut Plan, test: Operand, bit: Operand) -> Operand
    requires test { IsAt plan.old test }
    requires bit { IsAt plan.old bit }
    requires word { bit.word ≡ bit_word }
    ensures { IsMade plan.old plan.new bit_word (λ numbers.
        IsChosen (numbers test.place) (numbers bit.place) (pos 0) (numbers result.place)) result }
{
    choose(plan, test, bit, test, bit_word())
}

/// 1 where the number isn't 0, else 0.
pub fn truth(plan: &mut Plan, from: Operand) -> Operand
    requires { IsAt plan.old from }
    ensures { IsMade plan.old plan.new bit_word
        (λ numbers. IsTruthOf (numbers from.place) (numbers result.place)) result }
{
    if from.word == bit_word() {
        return from;
    }
    let one = constant(plan, 1, bit_word());
    both(plan, from, one)
}

/// 0 where the bit is 1, and 1 where it is 0.
pub fn inverse(plan: &mut Plan, bit: Operand) -> Operand
    requires at { IsAt plan.old bit }
    requires word { bit.word ≡ bit_word }
    ensures { IsMade plan.old plan.new bit_word
        (λ numbers. numbers result.place ≡ pos 1 -ℤ numbers bit.place) result }
{
    unary(plan, NetOp::Not, bit, bit_word())
}
