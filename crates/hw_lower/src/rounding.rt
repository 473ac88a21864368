//! A number divided by a power of two and rounded, in its own word: the quotient rounded down, and
//! a carry of one bit.
ghost use Rattle.std.specs.Prelude.{◌≡◌, ◌-◌, ◌+ℤ◌, true};
ghost use Rattle.fx_type.specs.declared.rounding.Rounding.TheVariants.{Ceiling, Zero, Round};
ghost use Rattle.fx_type.specs.declared.rounding.Rounding.TheVariants.{Nearest, Convergent};
ghost use Rattle.math_num.specs.Bits.{shifted_down, low_bits};
ghost use Rattle.hw_lower.specs.inner.PlanSteps.{IsAt, IsMade, IsPastTie, IsRounded, CanRaise, CanPassTie, CanRound};
ghost use Rattle.hw_lower.specs.inner.PlanSteps.{bit_word};

use crate::bits::{bit, bit_word, both, lowest, truth};
use crate::plan::{Operand, Plan, binary, choose, constant, unary};
use fx_type::Rounding;
use hw_net::NetOp;

/// The number divided by 2 to the power `by`, rounded by the mode.
pub fn round(plan: &mut Plan, from: Operand, by: u8, mode: Rounding) -> Operand
    requires { CanRound plan.old from by }
    ensures { IsRounded mode plan.old plan.new from by result }
{
    match mode {
        Rounding::Floor => down(plan, from, by),
        Rounding::Ceiling => up(plan, from, by),
        Rounding::Zero => {
            if from.word.signed {
                to_zero(plan, from, by)
            } else {
                down(plan, from, by)
            }
        }
        Rounding::Nearest => to_nearest(plan, from, by),
        Rounding::Round => from_zero(plan, from, by),
        Rounding::Convergent => to_even(plan, from, by),
    }
}

/// Rounded down.
fn down(plan: &mut Plan, from: Operand, by: u8) -> Operand
    requires { IsAt plan.old from }
    ensures { IsMade plan.old plan.new from.word (λ numbers.
        numbers result.place ≡ shifted_down (numbers from.place) by) result }
{
    unary(plan, NetOp::ShiftDown(by), from, from.word)
}

/// Rounded down, and the carry added.
fn round_by_carry(plan: &mut Plan, from: Operand, by: u8, carry: Operand) -> Operand
    requires { CanRaise plan.old from by carry }
    ensures { IsMade plan.old plan.new from.word (λ numbers.
        numbers result.place ≡ shifted_down (numbers from.place) by +ℤ numbers carry.place) result }
{
    let below = down(plan, from, by);
    binary(plan, NetOp::Add, below, carry, from.word)
}

/// Rounded up: where a bit is lost.
fn up(plan: &mut Plan, from: Operand, by: u8) -> Operand
    requires { CanRound plan.old from by }
    ensures { IsRounded Ceiling plan.old plan.new from by result }
{
    let low = lowest(plan, from, by);
    let carry = truth(plan, low);
    round_by_carry(plan, from, by, carry)
}

/// A number that may be negative, rounded to 0: up where it is and bits are lost.
fn to_zero(plan: &mut Plan, from: Operand, by: u8) -> Operand
    requires can { CanRound plan.old from by }
    requires signed { from.word.signed ≡ true }
    ensures { IsRounded Zero plan.old plan.new from by result }
{
    let low = lowest(plan, from, by);
    let sign = bit(plan, from, from.word.width - 1);
    let carry = both(plan, low, sign);
    round_by_carry(plan, from, by, carry)
}

/// Rounded to the nearest, ties up: where the highest lost bit is set.
fn to_nearest(plan: &mut Plan, from: Operand, by: u8) -> Operand
    requires { CanRound plan.old from by }
    ensures { IsRounded Nearest plan.old plan.new from by result }
{
    let half = bit(plan, from, by - 1);
    round_by_carry(plan, from, by, half)
}

/// Rounded to the nearest, ties away from 0: up where the highest lost bit is set, but not from a
/// tie of a negative number.
fn from_zero(plan: &mut Plan, from: Operand, by: u8) -> Operand
    requires { CanRound plan.old from by }
    ensures { IsRounded Round plan.old plan.new from by result }
{
    if from.word.signed {
        let half = bit(plan, from, by - 1);
        let sign = bit(plan, from, from.word.width - 1);
        let zero = constant(plan, 0, bit_word());
        let tie = choose(plan, sign, zero, half, bit_word());
        let carry = past_tie(plan, from, by, half, tie);
        return round_by_carry(plan, from, by, carry);
    }
    to_nearest(plan, from, by)
}

/// Rounded to the nearest, ties to even: up where the highest lost bit is set, but not from a tie
/// above an even number.
fn to_even(plan: &mut Plan, from: Operand, by: u8) -> Operand
    requires { CanRound plan.old from by }
    ensures { IsRounded Convergent plan.old plan.new from by result }
{
    let half = bit(plan, from, by - 1);
    let odd = bit(plan, from, by);
    let tie = both(plan, half, odd);
    let carry = past_tie(plan, from, by, half, tie);
    round_by_carry(plan, from, by, carry)
}

/// The highest lost bit where a lower one is set, and else what a tie gives.
fn past_tie(plan: &mut Plan, from: Operand, by: u8, half: Operand, tie: Operand) -> Operand
    requires { CanPassTie plan.old from by half tie }
    ensures { IsMade plan.old plan.new bit_word (λ numbers.
        IsPastTie (low_bits (by - 1) (numbers from.place)) (numbers half.place)
        (numbers tie.place) (numbers result.place)) result }
{
    if by == 1 {
        return tie;
    }
    let rest = lowest(plan, from, by - 1);
    choose(plan, rest, half, tie, bit_word())
}
