//! A number between two whole numbers, and which of them a rounding mode takes.
ghost use Rattle.std.specs.Prelude.{◌≡◌, ℕ, ◌+◌, ◌*◌, ◌^◌, ◌<◌, ◌≤◌, ◌-◌, ℤ, pos, ◌<ℤ◌};
ghost use Rattle.fx_type.specs.Conversion.{Rounds, RoundsTiesUp};
ghost use Rattle.fx_round.specs.declared.split.Part.{Part};
ghost use Rattle.fx_round.specs.inner.Parts.{IsPart, IsSplit, takes_upper as takes_upper_of};

use fx_type::Rounding;

/// Where a number lies between the whole number below it and the next.
#[derive(Clone, Copy)]
pub enum Part {
    /// It is the lower one.
    Whole,
    /// Nearer to the lower one.
    BelowHalf,
    /// In the middle.
    Half,
    /// Nearer to the upper one.
    AboveHalf,
}

/// The whole number below a number, and where the number lies above it.
#[derive(Clone, Copy)]
pub struct Split {
    pub floor: i128,
    pub part: Part,
}

/// Where `rest` lies between 0 and `unit`.
pub fn part_of(rest: u128, unit: u128) -> Part
    requires unit { unit ≤ 2 ^ 127 }
    requires below { rest < unit }
    ensures { IsPart unit rest result }
{
    if rest == 0 {
        Part::Whole
    } else if 2 * rest < unit {
        Part::BelowHalf
    } else if 2 * rest == unit {
        Part::Half
    } else {
        Part::AboveHalf
    }
}

/// `v` over 2 to the power `by`, rounded by the mode.
pub fn rounded_down(v: i128, by: u32, mode: Rounding) -> i128
    requires { 1 ≤ by }
    ensures { Rounds mode v (2 ^ by) result }
{
    if by <= 63 {
        rounded_near(v, by, mode)
    } else {
        rounded_far(v, by, mode)
    }
}

/// The same where what is left has at most 63 bits.
fn rounded_near(v: i128, by: u32, mode: Rounding) -> i128
    requires some { 1 ≤ by }
    requires near { by ≤ 63 }
    ensures { Rounds mode v (2 ^ by) result }
{
    match mode {
        Rounding::Floor => v >> by,
        Rounding::Nearest => nearest(v, by),
        Rounding::Ceiling => by_rest(v, by, low_mask(by), Rounding::Ceiling),
        Rounding::Zero => by_rest(v, by, low_mask(by), Rounding::Zero),
        Rounding::Round => by_rest(v, by, low_mask(by), Rounding::Round),
        Rounding::Convergent => by_rest(v, by, low_mask(by), Rounding::Convergent),
    }
}

/// The same where more may be left. It stands apart, so that the near way needs few registers.
#[inline(never)]
fn rounded_far(v: i128, by: u32, mode: Rounding) -> i128
    requires { 1 ≤ by }
    ensures { Rounds mode v (2 ^ by) result }
{
    if by < 128 {
        match mode {
            Rounding::Floor => v >> by,
            Rounding::Nearest => nearest(v, by),
            Rounding::Ceiling | Rounding::Zero | Rounding::Round | Rounding::Convergent => {
                by_rest(v, by, mask(by), mode)
            }
        }
    } else {
        rounded_value(far_split(v, by), mode)
    }
}

/// `v` over 2 to the power `by`, rounded to the nearest, ties toward plus infinity: half of the whole
/// number of halves, and the half that is left.
fn nearest(v: i128, by: u32) -> i128
    requires some { 1 ≤ by }
    requires near { by ≤ 127 }
    ensures { RoundsTiesUp v (2 ^ by) result }
{
    let halves = v >> (by - 1);
    (halves >> 1) + (halves & 1)
}

/// 2 to the power `by`, less one.
fn mask(by: u32) -> u128
    requires some { 1 ≤ by }
    requires near { by ≤ 127 }
    ensures { result + 1 ≡ 2 ^ by }
{
    u128::MAX >> (128 - by)
}

/// The same in 64 bits.
fn low_mask(by: u32) -> u128
    requires { by ≤ 63 }
    ensures { result + 1 ≡ 2 ^ by }
{
    u128::from((1u64 << by) - 1)
}

/// `v` over 2 to the power `by`, rounded by the mode: the whole number below it or the next, by what
/// is left above the lower one, which the mask tells. Each call of it has a mode of its own, which
/// isn't looked at when the program runs.
#[inline(always)]
fn by_rest(v: i128, by: u32, mask: u128, mode: Rounding) -> i128
    requires some { 1 ≤ by }
    requires near { by ≤ 127 }
    requires mask { mask + 1 ≡ 2 ^ by }
    ensures { Rounds mode v (2 ^ by) result }
{
    let half = (mask >> 1) + 1;
    let rest = v.cast_unsigned() & mask;
    let floor = v >> by;
    let next = is_upper(mode, rest, half, floor < 0, floor % 2 != 0);
    floor + i128::from(next)
}

/// Whether the mode takes the upper one of the whole numbers around a number that lies `rest` over
/// twice `half` above the lower one.
fn is_upper(mode: Rounding, rest: u128, half: u128, negative: bool, odd: bool) -> bool
    requires some { 1 ≤ half }
    requires room { half ≤ 2 ^ 126 }
    requires below { rest < 2 * half }
    ensures { (part : Part) → IsPart (2 * half) rest part
        → result ≡ takes_upper_of mode part negative odd }
{
    match mode {
        Rounding::Floor => false,
        Rounding::Ceiling => rest != 0,
        Rounding::Zero => negative & (rest != 0),
        Rounding::Nearest => rest >= half,
        Rounding::Round => rest >= half + u128::from(negative),
        Rounding::Convergent => rest + u128::from(odd) > half,
    }
}

/// The lower whole number and the part of `v` over 2 to the power `by`, which is above every number
/// of 128 bits.
fn far_split(v: i128, by: u32) -> Split
    requires { 128 ≤ by }
    ensures room { result.floor <ℤ pos (2 ^ 126) }
    ensures split { IsSplit v (2 ^ by) result.floor result.part }
{
    if v > 0 {
        Split {
            floor: 0,
            part: Part::BelowHalf,
        }
    } else if v == 0 {
        Split {
            floor: 0,
            part: Part::Whole,
        }
    } else if v == i128::MIN && by == 128 {
        Split {
            floor: -1,
            part: Part::Half,
        }
    } else {
        Split {
            floor: -1,
            part: Part::AboveHalf,
        }
    }
}

/// Whether the mode takes the upper of the two whole numbers.
fn takes_upper(mode: Rounding, part: Part, negative: bool, odd: bool) -> bool
    ensures { result ≡ takes_upper_of mode part negative odd }
{
    match part {
        Part::Whole => false,
        Part::BelowHalf => match mode {
            Rounding::Ceiling => true,
            Rounding::Zero => negative,
            _ => false,
        },
        Part::Half => match mode {
            Rounding::Floor => false,
            Rounding::Ceiling | Rounding::Nearest => true,
            Rounding::Zero => negative,
            Rounding::Round => !negative,
            Rounding::Convergent => odd,
        },
        Part::AboveHalf => match mode {
            Rounding::Floor => false,
            Rounding::Zero => negative,
            _ => true,
        },
    }
}

/// The whole number that the mode gives. It is that of every fraction with this split.
pub fn rounded_value(split: Split, mode: Rounding) -> i128
    requires { split.floor <ℤ pos (2 ^ 127 - 1) }
    ensures { (n : ℤ) (d : ℕ) → IsSplit n d split.floor split.part → Rounds mode n d result }
{
    if takes_upper(mode, split.part, split.floor < 0, split.floor % 2 != 0) {
        split.floor + 1
    } else {
        split.floor
    }
}
