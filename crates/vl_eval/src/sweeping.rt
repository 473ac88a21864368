ghost use Rattle.std.specs.Prelude.{◌≡◌, ◌<◌, ◌+◌, ◌-◌, ◌*◌, ◌%◌, ◌^◌, nat_le, bit_and, length, take, slice_index, if◌then◌else◌};
ghost use Rattle.vl_eval.specs.inner.Ops.{AreSettled, IsOrdered, IsSettled, op_value, reads_below};
ghost use Rattle.vl_eval.specs.inner.Steps.{AreWithin, IsWithin, op_in, ops_of};

use crate::ops::{Op, chosen_word, signed_down, value_of};
use crate::steps::{LONGEST, Pair, Step};

/// The low 64 bits.
pub fn low(bits: u128) -> u64
    ensures { result ≡ bits % 2 ^ 64 }
{
    (bits & LONGEST) as u64
}

/// A word, with the bits of `fill` on its left where it is `half` or more.
fn sign_extension(bits: u128, half: u64, fill: u64) -> u128
    ensures { result ≡ (if nat_le half bits then (bits + fill) % 2 ^ 128 else bits) }
{
    let more = if bits >= u128::from(half) { fill } else { 0 };
    bits.wrapping_add(u128::from(more))
}

/// The sum, of which `mask` is kept.
fn sum(left: u128, right: u128, mask: u64) -> u128
    ensures { result ≡ bit_and ((left + right) % 2 ^ 128) mask }
{
    u128::from(low(left).wrapping_add(low(right)) & mask)
}

/// The difference, of which `mask` is kept.
fn difference(left: u128, right: u128, mask: u64) -> u128
    ensures { result ≡ bit_and ((left + (2 ^ 128 - right)) % 2 ^ 128) mask }
{
    u128::from(low(left).wrapping_sub(low(right)) & mask)
}

/// The product, of which `mask` is kept.
fn product(left: u128, right: u128, mask: u64) -> u128
    ensures { result ≡ bit_and (left * right % 2 ^ 128) mask }
{
    u128::from(low(left).wrapping_mul(low(right)) & mask)
}

/// The words at two places.
fn words(values: &[u128], pair: Pair) -> (u128, u128)
    requires { (pair.left < length values.now) × (pair.right < length values.now) }
    ensures left { result.0 ≡ slice_index values.now pair.left }
    ensures right { result.1 ≡ slice_index values.now pair.right }
{
    (values[pair.left as usize], values[pair.right as usize])
}

/// What an operation gives, by its step.
fn value_by(step: Step, wide: &[Op], values: &[u128]) -> u128
    requires within { IsWithin (length wide.now) step }
    requires reads { reads_below (op_in wide.now step) (length values.now) }
    ensures { result ≡ op_value (op_in wide.now step) (λ k. slice_index values.now k) }
{
    match step {
        Step::Constant(bits) => bits as u128,
        Step::Extended { part, half, fill } => sign_extension(values[part as usize], half, fill),
        Step::Select { part, low, mask } => (values[part as usize] >> low) & mask as u128,
        Step::Add(pair, mask) => {
            let (left, right) = words(values, pair);
            sum(left, right, mask)
        }
        Step::Subtract(pair, mask) => {
            let (left, right) = words(values, pair);
            difference(left, right, mask)
        }
        Step::Multiply(pair, mask) => {
            let (left, right) = words(values, pair);
            product(left, right, mask)
        }
        Step::And(pair) => {
            let (left, right) = words(values, pair);
            left & right
        }
        Step::Or(pair) => {
            let (left, right) = words(values, pair);
            left | right
        }
        Step::Xor(pair) => {
            let (left, right) = words(values, pair);
            left ^ right
        }
        Step::Equal(pair) => {
            let (left, right) = words(values, pair);
            (left == right) as u128
        }
        Step::NotEqual(pair) => {
            let (left, right) = words(values, pair);
            (left != right) as u128
        }
        Step::Less(pair, half) => {
            let (left, right) = words(values, pair);
            let half = half as u128;
            (left ^ half < right ^ half) as u128
        }
        Step::LessEqual(pair, half) => {
            let (left, right) = words(values, pair);
            let half = half as u128;
            (left ^ half <= right ^ half) as u128
        }
        Step::Both(pair) => {
            let (left, right) = words(values, pair);
            ((left != 0) & (right != 0)) as u128
        }
        Step::Either(pair) => {
            let (left, right) = words(values, pair);
            ((left != 0) | (right != 0)) as u128
        }
        Step::Negate { part, mask } => 0u128.wrapping_sub(values[part as usize]) & mask as u128,
        Step::Invert { part, mask } => (mask as u128).wrapping_sub(values[part as usize]),
        Step::IsZero { part } => (values[part as usize] == 0) as u128,
        Step::Up { part, places, mask } => (values[part as usize] << places) & mask as u128,
        Step::SignedDown {
            places,
            part,
            half,
            mask,
        } => signed_down(
            values[part as usize],
            places as u32,
            half as u128,
            mask as u128,
        ),
        Step::Choose {
            test,
            chosen: first,
            other,
        } => chosen_word(values, test as usize, first as usize, other as usize),
        Step::Beside(pair, places) => {
            let (left, right) = words(values, pair);
            (left << places).wrapping_add(right)
        }
        Step::Next(register) => {
            if values[register.reset as usize] == 1 {
                register.first as u128
            } else {
                let (test, value, kept) = (register.test, register.value, register.kept);
                chosen_word(values, test as usize, value as usize, kept as usize)
            }
        }
        Step::Whole(number) => value_of(wide[number], values),
    }
}

/// Works out the operations from the number `from` on in one sweep, each into its place after the first
/// `base` values. Those before have their values.
pub fn sweep(steps: &[Step], wide: &[Op], base: usize, from: usize, values: &mut [u128])
    requires within { AreWithin (length wide.now) steps.now }
    requires room { length values.now ≡ base + length steps.now }
    requires ordered { IsOrdered base (ops_of wide.now steps.now) }
    requires begun { AreSettled base from (ops_of wide.now steps.now) values.now }
    ensures settled { IsSettled base (ops_of wide.now steps.now) (λ k. slice_index values.new k) }
    ensures kept { take base values.new ≡ take base values.old }
    ensures long { length values.new ≡ length values.old }
{
    for number in from..steps.len() {
        let value = value_by(steps[number], wide, values);
        values[base + number] = value;
    }
}
