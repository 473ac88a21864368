ghost use Rattle.std.specs.Prelude.{◌≡◌, ◌<◌, ◌+◌, ◌-◌, ◌/◌, ◌%◌, ◌^◌, ◌==◌, nat_le, length, slice_index, if◌then◌else◌};
ghost use Rattle.vl_eval.specs.inner.Ops.{one_value, op_value, reads_below, shifts_within, two_value};

/// What is worked out of one value.
#[derive(Clone, Copy)]
pub enum OneOp {
    /// The value, and `fill` on its left where it is `half` or more.
    Extended { half: u128, fill: u128 },
    /// The bits from the place `low` on, of which `mask` is kept.
    Select { low: u32, mask: u128 },
    /// The two's complement, of which the mask is kept.
    Negate(u128),
    /// The bits of the mask that the value hasn't.
    Invert(u128),
    /// 1 where the value is 0.
    IsZero,
    /// The bits up by `places`, of which `mask` is kept.
    Up { places: u32, mask: u128 },
    /// The bits down by `places`; where the value is `half` or more, ones of `mask` come from the left.
    SignedDown { places: u32, half: u128, mask: u128 },
}

/// What is worked out of two values.
#[derive(Clone, Copy)]
pub enum TwoOp {
    /// The sum, of which the mask is kept.
    Add(u128),
    /// The difference, of which the mask is kept.
    Subtract(u128),
    /// The product, of which the mask is kept.
    Multiply(u128),
    And,
    Or,
    Xor,
    Equal,
    NotEqual,
    /// 1 where the left one is below the right one; this bit of both is turned, so that signed words
    /// compare.
    Less(u128),
    /// 1 where the left one isn't above the right one, compared as by `Less`.
    LessEqual(u128),
    /// 1 where neither is 0.
    Both,
    /// 1 where one isn't 0.
    Either,
}

/// What a register takes: `first` where the value at `reset` is 1, else that at `kept` where that at
/// `test` is 0, else that at `value`.
#[derive(Clone, Copy)]
pub struct Register {
    pub reset: usize,
    pub first: u128,
    pub test: usize,
    pub value: usize,
    pub kept: usize,
}

/// One step of a row: a value from values that stand before it. Widths, signs and contexts are worked
/// out when it is made, so that it is arithmetic on whole words alone. Operands are places of values.
#[derive(Clone, Copy)]
pub enum Op {
    /// The bits.
    Constant(u128),
    One(OneOp, usize),
    Two(TwoOp, usize, usize),
    /// `left` up by `places`, and `right` on its right.
    Beside {
        left: usize,
        right: usize,
        places: u32,
    },
    /// `chosen`, or `other` where `test` is 0.
    Choose {
        test: usize,
        chosen: usize,
        other: usize,
    },
    /// What a register takes.
    Next(Register),
}

/// The word at one of two places, by whether a third is 0.
pub fn chosen_word(values: &[u128], test: usize, chosen: usize, other: usize) -> u128
    requires { (test < length values.now) × (chosen < length values.now)
        × (other < length values.now) }
    ensures { result ≡ (if slice_index values.now test == 0 then slice_index values.now other
        else slice_index values.now chosen) }
{
    let place = if values[test] == 0 { other } else { chosen };
    values[place]
}

/// A word down by `places`; where it is `half` or more, ones of `mask` come from the left.
pub fn signed_down(bits: u128, places: u32, half: u128, mask: u128) -> u128
    requires { places < 128 }
    ensures { result ≡ (if nat_le half bits
        then (mask + (2 ^ 128 - (mask + (2 ^ 128 - bits)) % 2 ^ 128 / 2 ^ places)) % 2 ^ 128
        else bits / 2 ^ places) }
{
    if bits >= half {
        mask.wrapping_sub(mask.wrapping_sub(bits) >> places)
    } else {
        bits >> places
    }
}

/// What an operation gives of one value.
fn value_of_one(op: OneOp, bits: u128) -> u128
    requires { shifts_within op }
    ensures { result ≡ one_value op bits }
{
    match op {
        OneOp::Extended { half, fill } => {
            if bits >= half {
                bits.wrapping_add(fill)
            } else {
                bits
            }
        }
        OneOp::Select { low, mask } => (bits >> low) & mask,
        OneOp::Negate(mask) => 0u128.wrapping_sub(bits) & mask,
        OneOp::Invert(mask) => mask.wrapping_sub(bits),
        OneOp::IsZero => (bits == 0) as u128,
        OneOp::Up { places, mask } => (bits << places) & mask,
        OneOp::SignedDown { places, half, mask } => signed_down(bits, places, half, mask),
    }
}

/// What an operation gives of two values.
fn value_of_two(op: TwoOp, left: u128, right: u128) -> u128
    ensures { result ≡ two_value op left right }
{
    match op {
        TwoOp::Add(mask) => left.wrapping_add(right) & mask,
        TwoOp::Subtract(mask) => left.wrapping_sub(right) & mask,
        TwoOp::Multiply(mask) => left.wrapping_mul(right) & mask,
        TwoOp::And => left & right,
        TwoOp::Or => left | right,
        TwoOp::Xor => left ^ right,
        TwoOp::Equal => (left == right) as u128,
        TwoOp::NotEqual => (left != right) as u128,
        TwoOp::Less(half) => (left ^ half < right ^ half) as u128,
        TwoOp::LessEqual(half) => (left ^ half <= right ^ half) as u128,
        TwoOp::Both => ((left != 0) & (right != 0)) as u128,
        TwoOp::Either => ((left != 0) | (right != 0)) as u128,
    }
}

/// What an operation gives.
pub fn value_of(op: Op, values: &[u128]) -> u128
    requires { reads_below op (length values.now) }
    ensures { result ≡ op_value op (λ k. slice_index values.now k) }
{
    match op {
        Op::Constant(bits) => bits,
        Op::One(of, part) => value_of_one(of, values[part]),
        Op::Two(of, left, right) => value_of_two(of, values[left], values[right]),
        Op::Beside {
            left,
            right,
            places,
        } => (values[left] << places).wrapping_add(values[right]),
        Op::Choose {
            test,
            chosen: first,
            other,
        } => chosen_word(values, test, first, other),
        Op::Next(register) => {
            if values[register.reset] == 1 {
                register.first
            } else {
                chosen_word(values, register.test, register.value, register.kept)
            }
        }
    }
}
