//! What an operation gives, modulo 2 to the power 128 and then cut to a word.
ghost use Rattle.std.specs.Prelude.{◌≡◌, ◌^◌, ◌<◌, ◌≤◌, ◌+◌, ◌/◌, ◌%◌, length, pos, ◌+ℤ◌, ◌-ℤ◌};
ghost use Rattle.std.specs.Prelude.{◌*ℤ◌, negsuc, not, if◌then◌else◌, int_lt, bit_and};
ghost use Rattle.std.specs.Prelude.{bit_or, bit_xor};
ghost use Rattle.math_num.specs.Word.{IsCongruent, IsWord, IsWrapped};
ghost use Rattle.hw_net.specs.Operation.{given_by};
ghost use Rattle.math_num.specs.Bits.{low_bits, shifted_down, truth};
ghost use Rattle.std.specs.Ordering.{int_eq};
ghost use Rattle.hw_run.specs.inner.StepTests.{CanGive};
ghost use Rattle.hw_run.specs.State.{row_of};

use fx_num::wrap;
use hw_net::NetOp;

/// The sum.
fn sum(a: i128, b: i128) -> i128
    ensures { IsCongruent result (a +ℤ b) (2 ^ 128) }
{
    a.wrapping_add(b)
}

/// The difference.
fn difference(a: i128, b: i128) -> i128
    ensures { IsCongruent result (a -ℤ b) (2 ^ 128) }
{
    a.wrapping_sub(b)
}

/// The product.
fn product(a: i128, b: i128) -> i128
    ensures { IsCongruent result (a *ℤ b) (2 ^ 128) }
{
    a.wrapping_mul(b)
}

/// Times a power of two.
fn shift_up(v: i128, places: u8) -> i128
    ensures { IsCongruent result (v *ℤ pos (2 ^ places)) (2 ^ 128) }
{
    if places < 128 { v << places } else { 0 }
}

/// By a power of two, rounded down.
fn floor_quotient(v: i128, places: u8) -> i128
    ensures { result ≡ shifted_down v places }
{
    if places < 127 {
        v >> places
    } else if v < 0 {
        -1
    } else {
        0
    }
}

fn both(a: i128, b: i128) -> i128
    ensures { IsCongruent result (pos (bit_and (low_bits 128 a) (low_bits 128 b))) (2 ^ 128) }
{
    a & b
}

fn either(a: i128, b: i128) -> i128
    ensures { IsCongruent result (pos (bit_or (low_bits 128 a) (low_bits 128 b))) (2 ^ 128) }
{
    a | b
}

fn one_of(a: i128, b: i128) -> i128
    ensures { IsCongruent result (pos (bit_xor (low_bits 128 a) (low_bits 128 b))) (2 ^ 128) }
{
    a ^ b
}

fn complement(a: i128) -> i128
    ensures { IsCongruent result (negsuc 0 -ℤ a) (2 ^ 128) }
{
    !a
}

/// The bits `low` to `high`, of 128.
fn bits_between(bits: u128, high: u8, low: u8) -> u128
    requires order { low ≤ high }
    requires within { high < 128 }
    ensures { result ≡ bits % 2 ^ (high + 1) / 2 ^ low }
{
    (bits << (127 - high)) >> (127 - high + low)
}

/// The bits `low` to `high`.
fn slice(v: i128, high: u8, low: u8) -> i128
    requires order { low ≤ high }
    requires within { high < 128 }
    ensures { IsCongruent result (pos (low_bits (high + 1) v / 2 ^ low)) (2 ^ 128) }
{
    bits_between(v.cast_unsigned(), high, low).cast_signed()
}

/// The number itself.
fn identity(v: i128) -> i128
    ensures { IsCongruent result v (2 ^ 128) }
{
    v
}

/// By a power of two, rounded down.
fn shift_down(v: i128, places: u8) -> i128
    ensures { IsCongruent result (shifted_down v places) (2 ^ 128) }
{
    floor_quotient(v, places)
}

/// Whether the first is below the second.
fn less(a: i128, b: i128) -> i128
    ensures { IsCongruent result (truth (int_lt a b)) (2 ^ 128) }
{
    if a < b { 1 } else { 0 }
}

/// Whether both are one number.
fn equal(a: i128, b: i128) -> i128
    ensures { IsCongruent result (truth (int_eq a b)) (2 ^ 128) }
{
    if a == b { 1 } else { 0 }
}

/// The second where the first is not 0, else the third.
fn choice(a: i128, b: i128, c: i128) -> i128
    ensures { IsCongruent result (if not (int_eq a (pos 0)) then b else c) (2 ^ 128) }
{
    if a == 0 { c } else { b }
}

/// What an operation gives of three numbers, of which it looks at those that it asks for.
fn result_of(op: NetOp, inputs: &[i128], first: i128, second: i128, third: i128) -> i128
    requires { CanGive (length inputs.now) op }
    ensures { IsCongruent result
        (given_by op (row_of inputs.now) (record { first = first; second = second; third = third }))
        (2 ^ 128) }
{
    match op {
        NetOp::Input(number) => identity(inputs[number as usize]),
        NetOp::Const(value) => identity(value),
        NetOp::Resize => identity(first),
        NetOp::ShiftUp(places) => shift_up(first, places),
        NetOp::ShiftDown(places) => shift_down(first, places),
        NetOp::Add => sum(first, second),
        NetOp::Subtract => difference(first, second),
        NetOp::Negate => difference(0, first),
        NetOp::Multiply => product(first, second),
        NetOp::And => both(first, second),
        NetOp::Or => either(first, second),
        NetOp::Xor => one_of(first, second),
        NetOp::Not => complement(first),
        NetOp::Less => less(first, second),
        NetOp::Equal => equal(first, second),
        NetOp::Choose => choice(first, second, third),
        NetOp::Slice { high, low } => slice(first, high, low),
    }
}

/// The same, cut to a word.
pub fn operate(
    op: NetOp,
    inputs: &[i128],
    first: i128,
    second: i128,
    third: i128,
    width: u8,
    signed: bool,
) -> i128
    requires word { IsWord width signed }
    requires parts { CanGive (length inputs.now) op }
    ensures { IsWrapped
        (given_by op (row_of inputs.now) (record { first = first; second = second; third = third }))
        width signed result }
{
    wrap(result_of(op, inputs, first, second, third), width, signed)
}

/// A sum, cut to a word.
pub fn word_sum(left: i128, right: i128, width: u8, signed: bool) -> i128
    requires { IsWord width signed }
    ensures { IsWrapped (left +ℤ right) width signed result }
{
    wrap(sum(left, right), width, signed)
}

/// A product, cut to a word.
pub fn word_product(left: i128, right: i128, width: u8, signed: bool) -> i128
    requires { IsWord width signed }
    ensures { IsWrapped (left *ℤ right) width signed result }
{
    wrap(product(left, right), width, signed)
}
