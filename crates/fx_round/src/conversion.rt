//! Conversion of a stored integer from one type to another.
ghost use Rattle.std.specs.Prelude.{Bool, true, false, ℤ, pos, ◌*ℤ◌, ◌^◌, ◌≤◌};
ghost use Rattle.math_num.specs.Word.{IsWord, InWord};
ghost use Rattle.fx_type.specs.declared.kind.FxType.TheVariants.{Num};
ghost use Rattle.fx_type.specs.FxType.{IsType, InRange};
ghost use Rattle.fx_type.specs.Conversion.{Settles, StoresQuotient, Converts};
ghost use Rattle.fx_round.specs.inner.Narrow.{IsLowering};

use crate::settle::settled_up;
use crate::{narrow, settle, split};
use fx_type::{FxType, Rounding};

/// The stored integer `v` of the type `from`, in the type `to`: its value rounded by the mode to a
/// whole number of the type's units, and then, with `saturate`, the nearest number of the range, and
/// else the one that is congruent modulo 2 to the width. To `Logical`, 1 where it is not 0.
/// Source: Fixed-Point Designer.
pub fn convert(v: i128, from: FxType, to: FxType, mode: Rounding, saturate: bool) -> i128
    requires from { IsType from }
    requires to { IsType to }
    requires in_range { InRange from v }
    ensures { Converts v from to mode saturate result }
{
    match to {
        FxType::Num {
            signed,
            width,
            frac,
        } => match from {
            FxType::Num {
                signed: from_signed,
                width: bits,
                frac: point,
            } => {
                let up = frac - point;
                if up >= 0 {
                    stored_product(v, bits, from_signed, up as u16, width, signed, saturate)
                } else {
                    stored_quotient(v, bits, -up as u16, width, signed, mode, saturate)
                }
            }
            FxType::Logical if frac >= 0 => settled_up(v, frac as u16, width, signed, saturate),
            FxType::Logical => lowered_far(v, -frac as u16, width, signed, mode, saturate),
        },
        FxType::Logical => i128::from(v != 0),
    }
}

/// What a number type of this word stores for `v`, a number of a word of so many bits and this sign,
/// times 2 to the power `by`. A word of the same sign that has as many bits as the product keeps it
/// as it is.
fn stored_product(
    v: i128,
    bits: u8,
    from_signed: bool,
    by: u16,
    width: u8,
    signed: bool,
    saturate: bool,
) -> i128
    requires some { 1 ≤ bits }
    requires number { InWord bits from_signed v }
    requires shift { by ≤ 192 }
    requires word { IsWord width signed }
    ensures { (frac : ℤ) → Settles (Num signed width frac) saturate (v *ℤ pos (2 ^ by)) result }
{
    let most = u16::from(bits) + by;
    if u16::from(width) | most <= 63 {
        let shifted = narrow::shift_up(v as i64, by);
        if from_signed == signed && most <= u16::from(width) {
            i128::from(shifted)
        } else {
            i128::from(narrow::stored_number(shifted, width, signed, saturate))
        }
    } else {
        settled_up(v, by, width, signed, saturate)
    }
}

/// What a number type of this word stores for `v`, a number of a word of so many bits, over 2 to the
/// power `by`.
fn stored_quotient(
    v: i128,
    bits: u8,
    by: u16,
    width: u8,
    signed: bool,
    mode: Rounding,
    saturate: bool,
) -> i128
    requires number { (from_signed : Bool) × InWord bits from_signed v }
    requires lowering { IsLowering by width signed }
    ensures { (frac : ℤ) → StoresQuotient v (2 ^ by) (Num signed width frac) mode saturate result }
{
    if u16::from(width | bits) | by <= 63 {
        let rounded = narrow::rounded_down(v as i64, by, mode);
        i128::from(narrow::stored_number(rounded, width, signed, saturate))
    } else {
        lowered_far(v, by, width, signed, mode, saturate)
    }
}

/// The same in 128 bits.
fn lowered_far(v: i128, by: u16, width: u8, signed: bool, mode: Rounding, saturate: bool) -> i128
    requires { IsLowering by width signed }
    ensures { (frac : ℤ) → StoresQuotient v (2 ^ by) (Num signed width frac) mode saturate result }
{
    if saturate {
        saturated_far(v, by, width, signed, mode)
    } else {
        wrapped_far(v, by, width, signed, mode)
    }
}

/// The same, saturated. It stands apart, and takes no more than fits in registers, so that the short
/// way needs few; so does the next.
#[inline(never)]
fn saturated_far(v: i128, by: u16, width: u8, signed: bool, mode: Rounding) -> i128
    requires { IsLowering by width signed }
    ensures { (frac : ℤ) → StoresQuotient v (2 ^ by) (Num signed width frac) mode true result }
{
    settle::nearest(split::rounded_down(v, u32::from(by), mode), width, signed)
}

/// The same, wrapped.
#[inline(never)]
fn wrapped_far(v: i128, by: u16, width: u8, signed: bool, mode: Rounding) -> i128
    requires { IsLowering by width signed }
    ensures { (frac : ℤ) → StoresQuotient v (2 ^ by) (Num signed width frac) mode false result }
{
    settle::residue(split::rounded_down(v, u32::from(by), mode), width, signed)
}
