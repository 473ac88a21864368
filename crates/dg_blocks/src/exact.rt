//! Exact sums, products and alignments, and their one conversion.
ghost use Rattle.std.specs.Prelude.{◌≡◌, ℕ, ◌^◌, ◌<◌, ◌≤◌, pos, negsuc, ◌+ℤ◌, ◌*ℤ◌, ◌≤ℤ◌, All, Any, length, zip, FitsSigned};
ghost use Rattle.std.specs.Int.{int_gap, w128};
ghost use Rattle.fx_type.specs.declared.kind.FxType.{FxType};
ghost use Rattle.fx_type.specs.FxType.{IsType, InRange, frac_of, aligned as aligned_of};
ghost use Rattle.fx_type.specs.FullType.{negated_if, IsFullSum, IsFullProduct};
ghost use Rattle.dg_model.specs.Operation.{operation_of, IsConverted, signed_sum as signed_sum_of, type_of, value_of};

use dg_model::OpCall;
use fx_type::FxType;

/// `v` with `gap` more bits behind the point.
fn left_shift(v: i128, gap: u32) -> i128
    requires { FitsSigned w128 (v *ℤ pos (2 ^ gap)) }
    ensures { result ≡ v *ℤ pos (2 ^ gap) }
{
    if gap < 127 {
        v * (1 << gap)
    } else {
        fx_num::shift_up(v, gap).unwrap()
    }
}

/// How many bits more than the type `frac` has behind the point.
pub fn gap_above(frac: i16, kind: FxType) -> u32
    requires valid { IsType kind }
    requires above { frac_of kind ≤ℤ frac }
    requires high { frac ≤ℤ pos 128 }
    ensures { result ≡ int_gap (frac_of kind) frac }
{
    (frac - kind.frac()) as u32
}

/// The frac of the product of two types.
pub fn product_frac(a: FxType, b: FxType) -> i16
    requires left { IsType a }
    requires right { IsType b }
    ensures { result ≡ frac_of a +ℤ frac_of b }
{
    a.frac() + b.frac()
}

/// The stored integer `v` of the type, written with `frac` bits behind the point.
pub fn aligned_value(frac: i16, kind: FxType, v: i128) -> i128
    requires valid { IsType kind }
    requires above { frac_of kind ≤ℤ frac }
    requires high { frac ≤ℤ pos 128 }
    requires fits { FitsSigned w128 (aligned_of frac kind v) }
    ensures { result ≡ aligned_of frac kind v }
{
    left_shift(v, gap_above(frac, kind))
}

/// A term of a sum: the stored integer with its sign, written with `frac` bits behind the point.
fn term(negative: bool, frac: i16, kind: FxType, v: i128) -> i128
    requires valid { IsType kind }
    requires above { frac_of kind ≤ℤ frac }
    requires high { frac ≤ℤ pos 128 }
    requires fits { FitsSigned w128 (negated_if negative (aligned_of frac kind v)) }
    ensures { result ≡ negated_if negative (aligned_of frac kind v) }
{
    if negative {
        aligned_value(frac, kind, -v)
    } else {
        aligned_value(frac, kind, v)
    }
}

/// The greatest frac of the types.
pub fn greatest_frac(types: &[FxType]) -> i16
    requires { 1 ≤ length types.now }
    ensures bound { All (λ type. frac_of type ≤ℤ result) types.now }
    ensures reached { Any (λ type. frac_of type ≡ result) types.now }
{
    let mut greatest = types[0].frac();
    for kind in types {
        greatest = greatest.max(kind.frac());
    }
    greatest
}

/// The sum of the inputs with their signs, in units of 2 to the `-frac`.
pub fn signed_sum(signs: &[bool], types: &[FxType], inputs: &[i128], frac: i16) -> i128
    requires signs { length signs.now ≡ length types.now }
    requires inputs { length inputs.now ≡ length types.now }
    requires types { All IsType types.now }
    requires in_range { (input : ℕ) → input < length types.now
        → InRange (type_of types.now input) (value_of inputs.now input) }
    requires full { (full : FxType) × IsFullSum (zip signs.now types.now) full
        × (frac_of full ≡ frac) }
    ensures { result ≡ signed_sum_of frac (zip signs.now types.now) inputs.now }
{
    let mut total = 0;
    for (input, v) in inputs.iter().enumerate() {
        total += term(signs[input], frac, types[input], *v);
    }
    total
}

/// The product of two stored integers.
pub fn product(a: FxType, b: FxType, x: i128, y: i128) -> i128
    requires left { IsType a }
    requires right { IsType b }
    requires x_in_range { InRange a x }
    requires y_in_range { InRange b y }
    requires full { (full : FxType) × IsFullProduct a b full }
    ensures { result ≡ x *ℤ y }
{
    let _ = (a, b);
    x * y
}

/// An exact result in units of 2 to the `-frac`, converted to the result type of the call.
pub fn exact_conversion(call: &OpCall, exact: i128, frac: i16) -> i128
    requires low { negsuc 63 ≤ℤ frac }
    requires high { frac ≤ℤ pos 128 }
    requires result { IsType call.now.result }
    ensures { (from : FxType) → frac_of from ≡ frac
        → IsConverted (operation_of call.now) exact from result }
{
    let from = FxType::Num {
        signed: true,
        width: 128,
        frac,
    };
    fx_round::convert(exact, from, call.result, call.rounding, call.saturate)
}
