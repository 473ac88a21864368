//! The stored integer of a decimal.
ghost use Rattle.std.specs.Prelude.{◌≡◌, ℕ, ◌+◌, ◌*◌, ◌^◌, ◌<◌, ◌≤◌, true, ℤ, pos, negsuc, neg_ℤ, ◌≤ℤ◌, IfSome};
ghost use Rattle.std.specs.Int.{int_gap};
ghost use Rattle.fx_type.specs.declared.rounding.Rounding.TheVariants.{Nearest};
ghost use Rattle.fx_type.specs.FxType.{IsType};
ghost use Rattle.fx_type.specs.Conversion.{StoresQuotient, Stores, signed_digits};
ghost use Rattle.fx_round.specs.inner.Parts.{IsPart, IsSplit, IsSize, IsMagnitude, mixed_count};

use crate::settle::nearest_in_type;
use crate::split::{Part, Split, part_of, rounded_value};
use fx_type::{Decimal, FxType, Rounding};

/// A whole number and a rest, which is counted in units that the whole number's one has several of.
#[derive(Clone, Copy)]
pub struct Mixed {
    pub whole: u128,
    pub rest: u128,
}

/// The double.
fn doubled_once(mixed: Mixed, unit: u128) -> Mixed
    requires whole { mixed.whole < 2 ^ 127 }
    requires rest { mixed.rest < unit }
    requires unit { unit ≤ 2 ^ 126 }
    ensures double { mixed_count result unit ≡ 2 * mixed_count mixed unit }
    ensures rest { result.rest < unit }
{
    let twice = 2 * mixed.rest;
    if twice < unit {
        Mixed {
            whole: 2 * mixed.whole,
            rest: twice,
        }
    } else {
        Mixed {
            whole: 2 * mixed.whole + 1,
            rest: twice - unit,
        }
    }
}

/// The number times 2 to the power `by`.
fn power_product(number: Mixed, unit: u128, by: u32) -> Option<Split>
    requires whole { number.whole < 2 ^ 127 }
    requires rest { number.rest < unit }
    requires unit { unit ≤ 2 ^ 126 }
    ensures { IsSize (mixed_count number unit * 2 ^ by) unit result }
{
    let mut mixed = number;
    for _done in 0..by {
        mixed = doubled_once(mixed, unit);
        if mixed.whole >= 1 << 127 {
            return None;
        }
    }
    Some(Split {
        floor: mixed.whole as i128,
        part: part_of(mixed.rest, unit),
    })
}

/// The part, with something more that is less than its last digit is worth.
fn past(part: Part) -> Part
    ensures { (half low unit rest : ℕ) → 0 < half → 0 < rest → rest < unit
        → IsPart (2 * half) low part → IsPart (unit * (2 * half)) (low * unit + rest) result }
{
    match part {
        Part::Whole => Part::BelowHalf,
        Part::BelowHalf => Part::BelowHalf,
        Part::Half => Part::AboveHalf,
        Part::AboveHalf => Part::AboveHalf,
    }
}

/// The number over 2 to the power `by`.
fn power_quotient(mixed: Mixed, unit: u128, by: u32) -> Split
    requires whole { mixed.whole < 2 ^ 127 }
    requires rest { mixed.rest < unit }
    requires some { 1 ≤ by }
    requires few { by ≤ 126 }
    ensures { IsMagnitude (mixed_count mixed unit) (unit * 2 ^ by) result }
{
    let part = part_of(mixed.whole & ((1 << by) - 1), 1 << by);
    let floor = (mixed.whole >> by) as i128;
    if mixed.rest == 0 {
        Split { floor, part }
    } else {
        Split {
            floor,
            part: past(part),
        }
    }
}

/// The number times 2 to the power `frac`.
fn scaled_number(mixed: Mixed, unit: u128, frac: i16) -> Option<Split>
    requires whole { mixed.whole < 2 ^ 127 }
    requires rest { mixed.rest < unit }
    requires unit { unit ≤ 2 ^ 126 }
    requires least { negsuc 63 ≤ℤ frac }
    ensures { IsSize (mixed_count mixed unit * 2 ^ int_gap (pos 0) frac)
        (unit * 2 ^ int_gap frac (pos 0)) result }
{
    if frac >= 0 {
        power_product(mixed, unit, frac as u32)
    } else {
        Some(power_quotient(mixed, unit, -frac as u32))
    }
}

/// The decimal without its sign, times 2 to the power `frac`.
fn magnitude(decimal: Decimal, frac: i16) -> Option<Split>
    requires least { negsuc 63 ≤ℤ frac }
    ensures { IsSize
        (decimal.digits * 10 ^ int_gap (pos 0) decimal.exponent * 2 ^ int_gap (pos 0) frac)
        (10 ^ int_gap decimal.exponent (pos 0) * 2 ^ int_gap frac (pos 0)) result }
{
    let digits = u128::from(decimal.digits);
    let power = 10u128.pow(u32::from(decimal.exponent.unsigned_abs()));
    if decimal.exponent >= 0 {
        let mixed = Mixed {
            whole: digits * power,
            rest: 0,
        };
        scaled_number(mixed, 1, frac)
    } else {
        let mixed = Mixed {
            whole: digits / power,
            rest: digits % power,
        };
        scaled_number(mixed, power, frac)
    }
}

/// The negative of a number that is not negative.
fn negation(split: Split) -> Split
    requires { pos 0 ≤ℤ split.floor }
    ensures room { result.floor ≤ℤ pos 0 }
    ensures split { (n : ℤ) (d : ℕ) → IsSplit n d split.floor split.part
        → IsSplit (neg_ℤ n) d result.floor result.part }
{
    match split.part {
        Part::Whole => Split {
            floor: -split.floor,
            part: Part::Whole,
        },
        Part::BelowHalf => Split {
            floor: -1 - split.floor,
            part: Part::AboveHalf,
        },
        Part::Half => Split {
            floor: -1 - split.floor,
            part: Part::Half,
        },
        Part::AboveHalf => Split {
            floor: -1 - split.floor,
            part: Part::BelowHalf,
        },
    }
}

/// What the number type `to` stores for a magnitude with a sign.
fn settle_size(size: Option<Split>, negative: bool, to: FxType) -> i128
    requires valid { IsType to }
    requires size { IfSome size (λ split. pos 0 ≤ℤ split.floor) }
    ensures { (n d : ℕ) → 0 < d → IsSize n d size
        → StoresQuotient (signed_digits negative n) d to Nearest true result }
{
    match size {
        Some(split) => {
            if negative {
                nearest_in_type(rounded_value(negation(split), Rounding::Nearest), to)
            } else if split.floor < i128::MAX {
                nearest_in_type(rounded_value(split, Rounding::Nearest), to)
            } else {
                to.highest()
            }
        }
        None => { if negative { to.lowest() } else { to.highest() } }
    }
}

/// The stored integer of a decimal: its exact value rounded to the nearest, ties up, and then to the
/// nearest end of the range where it is outside. To `Logical`, 1 where it is not 0.
/// Source: Fixed-Point Designer, as parameters are stored.
pub fn to_stored(decimal: Decimal, to: FxType) -> i128
    requires { IsType to }
    ensures { Stores decimal to result }
{
    match to {
        FxType::Logical => i128::from(decimal.digits != 0),
        FxType::Num { frac, .. } => settle_size(magnitude(decimal, frac), decimal.negative, to),
    }
}
