ghost use Rattle.std.specs.Prelude.{◌≡◌, ◌<◌, ◌^◌, ℕ, List, IsTrue, IfSome};
ghost use Rattle.vl_eval.specs.declared.ops.Op.{Op};
ghost use Rattle.vl_eval.specs.declared.ops.Op.TheVariants.{One, Two};
ghost use Rattle.vl_eval.specs.inner.Order.{each_of};
ghost use Rattle.vl_eval.specs.inner.Steps.{IsWithin, op_in};

use crate::ops::{OneOp, Op, TwoOp};

/// The greatest number of 64 bits.
pub const LONGEST: u128 = 0xffff_ffff_ffff_ffff;

/// The greatest number of 32 bits.
const SHORT: u128 = 0xffff_ffff;

/// The places that a step can name.
const PLACES: usize = 1 << 32;

/// The places of two operands.
#[derive(Clone, Copy)]
pub struct Pair {
    pub left: u32,
    pub right: u32,
}

/// A `Register` whose places and first number have 32 bits.
#[derive(Clone, Copy)]
pub struct ShortRegister {
    pub reset: u32,
    pub first: u32,
    pub test: u32,
    pub value: u32,
    pub kept: u32,
}

/// An operation as it is kept and carried out. Places have 32 bits and numbers 64, a register's first
/// number 32, and fields stand in the order in which they leave no room: so it has 24 bytes, of which
/// an operation has 64. Sums, differences and products of words of up to 64 bits are worked out in 64
/// bits.
#[derive(Clone, Copy)]
pub enum Step {
    Constant(u64),
    Extended {
        part: u32,
        half: u64,
        fill: u64,
    },
    Select {
        part: u32,
        low: u32,
        mask: u64,
    },
    Add(Pair, u64),
    Subtract(Pair, u64),
    Multiply(Pair, u64),
    And(Pair),
    Or(Pair),
    Xor(Pair),
    Equal(Pair),
    NotEqual(Pair),
    Less(Pair, u64),
    LessEqual(Pair, u64),
    Both(Pair),
    Either(Pair),
    Negate {
        part: u32,
        mask: u64,
    },
    Invert {
        part: u32,
        mask: u64,
    },
    IsZero {
        part: u32,
    },
    Up {
        part: u32,
        places: u32,
        mask: u64,
    },
    SignedDown {
        places: u8,
        part: u32,
        half: u64,
        mask: u64,
    },
    Choose {
        test: u32,
        chosen: u32,
        other: u32,
    },
    Beside(Pair, u32),
    Next(ShortRegister),
    /// The operation of this number among those that no other step can be.
    Whole(usize),
}

// Five places and numbers of 32 bits, or one and two numbers of 64 bits.
const _: () = prove!(size_of::<Step>() == 24);

/// The step of an operation on one value, if it can hold its numbers.
fn step_of_one(op: OneOp, part: u32) -> Option<Step>
    ensures within { IfSome result (λ step. (count : ℕ) → IsWithin count step) }
    ensures held { IfSome result (λ step. (wide : List Op) → op_in wide step ≡ One op part) }
{
    let step = match op {
        OneOp::Extended { half, fill } if half <= LONGEST && fill <= LONGEST => Step::Extended {
            part,
            half: half as u64,
            fill: fill as u64,
        },
        OneOp::Select { low, mask } if mask <= LONGEST => Step::Select {
            part,
            low,
            mask: mask as u64,
        },
        OneOp::Negate(mask) if mask <= LONGEST => Step::Negate {
            part,
            mask: mask as u64,
        },
        OneOp::Invert(mask) if mask <= LONGEST => Step::Invert {
            part,
            mask: mask as u64,
        },
        OneOp::IsZero => Step::IsZero { part },
        OneOp::Up { places, mask } if mask <= LONGEST => Step::Up {
            part,
            places,
            mask: mask as u64,
        },
        OneOp::SignedDown { places, half, mask }
            if places < 128 && half <= LONGEST && mask <= LONGEST => {
            Step::SignedDown {
                places: places as u8,
                part,
                half: half as u64,
                mask: mask as u64,
            }
        }
        _ => return None,
    };
    Some(step)
}

/// The step of an operation on two values, if it can hold its number.
fn step_of_two(op: TwoOp, pair: Pair) -> Option<Step>
    ensures within { IfSome result (λ step. (count : ℕ) → IsWithin count step) }
    ensures held { IfSome result (λ step. (wide : List Op) → op_in wide step
        ≡ Two op pair.left pair.right) }
{
    let step = match op {
        TwoOp::Add(mask) if mask <= LONGEST => Step::Add(pair, mask as u64),
        TwoOp::Subtract(mask) if mask <= LONGEST => Step::Subtract(pair, mask as u64),
        TwoOp::Multiply(mask) if mask <= LONGEST => Step::Multiply(pair, mask as u64),
        TwoOp::And => Step::And(pair),
        TwoOp::Or => Step::Or(pair),
        TwoOp::Xor => Step::Xor(pair),
        TwoOp::Equal => Step::Equal(pair),
        TwoOp::NotEqual => Step::NotEqual(pair),
        TwoOp::Less(half) if half <= LONGEST => Step::Less(pair, half as u64),
        TwoOp::LessEqual(half) if half <= LONGEST => Step::LessEqual(pair, half as u64),
        TwoOp::Both => Step::Both(pair),
        TwoOp::Either => Step::Either(pair),
        _ => return None,
    };
    Some(step)
}

/// The step of an operation whose places it can name, if it can hold its numbers.
fn step_of(op: Op) -> Option<Step>
    requires { each_of (λ place. place < 2 ^ 32) op }
    ensures within { IfSome result (λ step. (count : ℕ) → IsWithin count step) }
    ensures held { IfSome result (λ step. (wide : List Op) → op_in wide step ≡ op) }
{
    let step = match op {
        Op::Constant(bits) if bits <= LONGEST => Step::Constant(bits as u64),
        Op::One(of, part) => return step_of_one(of, part as u32),
        Op::Two(of, left, right) => {
            let (left, right) = (left as u32, right as u32);
            return step_of_two(of, Pair { left, right });
        }
        Op::Beside {
            left,
            right,
            places,
        } => {
            let (left, right) = (left as u32, right as u32);
            Step::Beside(Pair { left, right }, places)
        }
        Op::Choose {
            test,
            chosen,
            other,
        } => Step::Choose {
            test: test as u32,
            chosen: chosen as u32,
            other: other as u32,
        },
        Op::Next(register) if register.first <= SHORT => Step::Next(ShortRegister {
            reset: register.reset as u32,
            first: register.first as u32,
            test: register.test as u32,
            value: register.value as u32,
            kept: register.kept as u32,
        }),
        _ => return None,
    };
    Some(step)
}

/// Whether a step can name each place that an operation reads.
fn are_few(op: Op) -> bool
    ensures { IsTrue result → each_of (λ place. place < 2 ^ 32) op }
{
    match op {
        Op::Constant(_) => true,
        Op::One(_, part) => part < PLACES,
        Op::Two(_, left, right) | Op::Beside { left, right, .. } => left < PLACES && right < PLACES,
        Op::Choose {
            test,
            chosen,
            other,
        } => test < PLACES && chosen < PLACES && other < PLACES,
        Op::Next(register) => {
            register.reset < PLACES
                && register.test < PLACES
                && register.value < PLACES
                && register.kept < PLACES
        }
    }
}

/// The step of an operation, if it can hold it.
pub fn narrow(op: Op) -> Option<Step>
    ensures within { IfSome result (λ step. (count : ℕ) → IsWithin count step) }
    ensures held { IfSome result (λ step. (wide : List Op) → op_in wide step ≡ op) }
{
    if are_few(op) { step_of(op) } else { None }
}
