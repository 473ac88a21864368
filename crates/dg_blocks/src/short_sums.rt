//! Sums in 64 bits.
ghost use Rattle.std.specs.Prelude.{◌≡◌, ◌^◌, ◌≤◌, pos, negsuc, ◌*ℤ◌, ◌≤ℤ◌, All, true, zip, FitsSigned};
ghost use Rattle.std.specs.Int.{w64};
ghost use Rattle.fx_type.specs.declared.kind.FxType.{FxType};
ghost use Rattle.fx_type.specs.FxType.{IsType, frac_of, aligned};
ghost use Rattle.fx_type.specs.FullType.{negated_if};
ghost use Rattle.dg_model.specs.Operation.{signed_sum as signed_sum_of};
ghost use Rattle.dg_blocks.specs.Narrow.{IsSmall};
ghost use Rattle.dg_blocks.specs.Prepared.{IsShort, IsSummable};

use crate::exact::gap_above;
use crate::narrow::{gap, short};
use fx_type::FxType;

/// Whether 62 bits hold the stored integers of the type, also with `frac` bits behind the point.
fn is_short(frac: i16, kind: FxType) -> bool
    requires low { negsuc 63 ≤ℤ frac }
    requires high { frac ≤ℤ pos 128 }
    requires kind { IsType kind }
    ensures { result ≡ true → IsShort frac kind }
{
    match gap(kind.frac(), frac) {
        Some(_) => kind.width() <= 61,
        None => false,
    }
}

/// Whether that holds of all types.
pub fn are_short(frac: i16, types: &[FxType]) -> bool
    requires low { negsuc 63 ≤ℤ frac }
    requires high { frac ≤ℤ pos 128 }
    requires types { All IsType types.now }
    ensures { result ≡ true → All (IsShort frac) types.now }
{
    for kind in types {
        if !is_short(frac, *kind) {
            return false;
        }
    }
    true
}

/// `v` with `gap` more bits behind the point.
fn left_shift(v: i64, gap: u32) -> i64
    requires gap { gap ≤ 60 }
    requires fits { FitsSigned w64 (v *ℤ pos (2 ^ gap)) }
    ensures { result ≡ v *ℤ pos (2 ^ gap) }
{
    v * (1 << gap)
}

/// A term of a sum: the stored integer with its sign, written with `frac` bits behind the point.
fn term(negative: bool, frac: i16, kind: FxType, v: i64) -> i64
    requires valid { IsType kind }
    requires high { frac ≤ℤ pos 128 }
    requires short { IsShort frac kind }
    requires small { IsSmall (aligned frac kind v) }
    ensures { result ≡ negated_if negative (aligned frac kind v) }
{
    let value = left_shift(v, gap_above(frac, kind));
    if negative { -value } else { value }
}

/// The sum of the inputs with their signs, in units of 2 to the `-frac`.
pub fn signed_sum(signs: &[bool], types: &[FxType], inputs: &[i128], frac: i16) -> i64
    requires high { frac ≤ℤ pos 128 }
    requires sum { IsSummable frac signs.now types.now inputs.now }
    ensures { result ≡ signed_sum_of frac (zip signs.now types.now) inputs.now }
{
    let mut total = 0;
    for (input, v) in inputs.iter().enumerate() {
        total += term(signs[input], frac, types[input], short(*v));
    }
    total
}
