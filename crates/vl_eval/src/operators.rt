ghost use Rattle.std.specs.Prelude.{◌≡◌, ◌≤◌, ◌-◌, ◌^◌, true};
ghost use Rattle.vl_ast.specs.Conditions.{is_number};
ghost use Rattle.vl_ast.specs.Value.{extended};
ghost use Rattle.vl_eval.specs.inner.OperatorSteps.{binary_op, down, shift_op, unary_op};

use crate::ops::{OneOp, Op, TwoOp};
use vl_ast::{BinOp, ShiftOp, Sized, UnOp, mask_of};

/// The weight of the sign bit of a word of this width.
pub fn half_of(width: u32) -> u128
    requires { width ≤ 128 }
    ensures { result ≡ 2 ^ (width - 1) }
{
    if width == 0 { 1 } else { 1 << (width - 1) }
}

/// The bits of a number in a context.
pub fn literal(number: &Sized, width: u32, signed: bool) -> u128
    requires number { is_number number.now ≡ true }
    requires longer { number.now.width ≤ width }
    requires most { width ≤ 128 }
    ensures { result ≡ extended (record {
      width = number.now.width;
      signed = signed;
      bits = number.now.bits;
    }) width }
{
    let Sized {
        width: from,
        signed: _,
        bits,
    } = *number;
    let bits = bits.get();
    if signed && bits >= half_of(from) {
        bits + (mask_of(width) - mask_of(from))
    } else {
        bits
    }
}

pub fn unary_op(op: UnOp, part: usize, mask: u128) -> Op
    ensures { result ≡ unary_op op part mask }
{
    match op {
        UnOp::Negate => Op::One(OneOp::Negate(mask), part),
        UnOp::Invert => Op::One(OneOp::Invert(mask), part),
        UnOp::IsZero => Op::One(OneOp::IsZero, part),
    }
}

pub fn binary_op(op: BinOp, left: usize, right: usize, mask: u128, half: u128) -> Op
    ensures { result ≡ binary_op op left right mask half }
{
    match op {
        BinOp::Add => Op::Two(TwoOp::Add(mask), left, right),
        BinOp::Subtract => Op::Two(TwoOp::Subtract(mask), left, right),
        BinOp::Multiply => Op::Two(TwoOp::Multiply(mask), left, right),
        BinOp::And => Op::Two(TwoOp::And, left, right),
        BinOp::Or => Op::Two(TwoOp::Or, left, right),
        BinOp::Xor => Op::Two(TwoOp::Xor, left, right),
        BinOp::Equal => Op::Two(TwoOp::Equal, left, right),
        BinOp::NotEqual => Op::Two(TwoOp::NotEqual, left, right),
        BinOp::Less => Op::Two(TwoOp::Less(half), left, right),
        BinOp::LessEqual => Op::Two(TwoOp::LessEqual(half), left, right),
        BinOp::Greater => Op::Two(TwoOp::Less(half), right, left),
        BinOp::GreaterEqual => Op::Two(TwoOp::LessEqual(half), right, left),
        BinOp::Both => Op::Two(TwoOp::Both, left, right),
        BinOp::Either => Op::Two(TwoOp::Either, left, right),
    }
}

/// A shift down without sign, by a number that may be longer than the word.
fn shift_down(part: usize, amount: u128, width: u32) -> Op
    requires { width ≤ 128 }
    ensures { result ≡ down part amount width }
{
    if amount < u128::from(width) {
        let (low, mask) = (amount as u32, mask_of(width));
        Op::One(OneOp::Select { low, mask }, part)
    } else {
        Op::Constant(0)
    }
}

pub fn shift_op(op: ShiftOp, part: usize, amount: u128, width: u32, signed: bool) -> Op
    requires { width ≤ 128 }
    ensures { result ≡ shift_op op part amount width signed }
{
    match op {
        ShiftOp::Left => {
            if amount < u128::from(width) {
                let (places, mask) = (amount as u32, mask_of(width));
                Op::One(OneOp::Up { places, mask }, part)
            } else {
                Op::Constant(0)
            }
        }
        ShiftOp::Right => shift_down(part, amount, width),
        ShiftOp::RightSigned => {
            if signed {
                let places = amount.min(u128::from(width.saturating_sub(1))) as u32;
                let (half, mask) = (half_of(width), mask_of(width));
                Op::One(OneOp::SignedDown { places, half, mask }, part)
            } else {
                shift_down(part, amount, width)
            }
        }
    }
}
