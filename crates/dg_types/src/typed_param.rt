//! The type of a Gain's coefficients. Each element lowers the frac until it fits, so a list of n
//! elements asks at most n + 192 times whether one is in range.
ghost use Rattle.std.specs.Prelude.{◌≡◌, ◌-◌, ◌<◌, ◌≤ℤ◌, ◌==◌, ◌&&◌, cond, pos, negsuc, All, IfSome};
ghost use Rattle.std.specs.List.{find, list_all, list_any, range_with_len};
ghost use Rattle.math_num.specs.Word.{IsWord};
ghost use Rattle.fx_type.specs.declared.kind.FxType.TheVariants.{Num};
ghost use Rattle.fx_type.specs.FxType.{IsType};
ghost use Rattle.fx_type.specs.StoredOf.{rounded_of, is_in_range};
ghost use Rattle.dg_model.specs.GainParam.{is_negative as is_negative_of, is_zero as is_zero_of, is_param_signed as is_param_signed_of};
ghost use Rattle.dg_model.specs.KindRow.{IsSpec};
ghost use Rattle.dg_types.specs.inner.TypeFit.{at_step, HasSign, greatest_fit as greatest_fit_of, internal_param as internal_param_of, param_type as param_type_of};

use crate::typed_fit::{fits, fraction_of};
use fx_type::{Decimal, FxType, TypeSpec};

/// Whether the decimal is below 0; -0 isn't.
fn is_negative(decimal: Decimal) -> bool
    ensures { result ≡ is_negative_of decimal }
{
    decimal.negative && decimal.digits > 0
}

/// Whether the decimal is 0.
fn is_zero(decimal: Decimal) -> bool
    ensures { result ≡ is_zero_of decimal }
{
    decimal.digits == 0
}

/// Whether every element is 0.
fn are_zero(value: &[Decimal]) -> bool
    ensures { result ≡ list_all is_zero_of value.now }
{
    value.iter().all(|decimal| is_zero(*decimal))
}

/// Whether some element is below 0.
fn has_negative(value: &[Decimal]) -> bool
    ensures { result ≡ list_any is_negative_of value.now }
{
    value.iter().any(|decimal| is_negative(*decimal))
}

/// Whether the coefficients of a list are signed under the internal rule.
fn is_param_signed(value: &[Decimal], input: FxType) -> bool
    ensures { result ≡ is_param_signed_of value.now input }
{
    input.is_signed() || has_negative(value)
}

/// Whether a decimal, rounded to the nearest at this frac, is a number of the word.
fn fits_at(decimal: Decimal, signed: bool, width: u8, frac: i16) -> bool
    requires word { IsWord width signed }
    requires sign { HasSign signed decimal }
    requires low { negsuc 63 ≤ℤ frac }
    requires high { frac ≤ℤ pos 128 }
    ensures { result ≡ is_in_range (Num signed width frac) (rounded_of decimal frac) }
{
    if decimal.digits == 0 {
        return true;
    }
    let bits = if signed { width } else { width + 1 };
    fits(fraction_of(decimal), u32::from(bits), frac)
}

/// The least number of steps down from the frac 128, no fewer than these, after which a decimal
/// fits.
fn fitting_step(decimal: Decimal, signed: bool, width: u8, steps: u8) -> Option<u8>
    requires word { IsWord width signed }
    requires sign { HasSign signed decimal }
    requires few { steps < 193 }
    ensures { result ≡ find (at_step decimal signed width) (range_with_len steps (193 - steps)) }
{
    for k in steps..193 {
        if fits_at(decimal, signed, width, 128 - i16::from(k)) {
            return Some(k);
        }
    }
    None
}

/// The greatest frac at which every element fits the word.
fn greatest_fit(value: &[Decimal], signed: bool, width: u8) -> Option<i16>
    requires word { IsWord width signed }
    requires sign { All (HasSign signed) value.now }
    ensures value { result ≡ greatest_fit_of value.now signed width }
    ensures valid { IfSome result (λ frac. (negsuc 63 ≤ℤ frac) × (frac ≤ℤ pos 128)) }
{
    let mut steps = 0;
    for decimal in value {
        let Some(next) = fitting_step(*decimal, signed, width, steps) else {
            return None;
        };
        steps = next;
    }
    Some(128 - i16::from(steps))
}

/// The width of coefficients: that of the input, and 2 for a signed width of 1.
fn param_width(signed: bool, width: u8) -> u8
    ensures { result ≡ cond (signed && (width == 1)) 2 width }
{
    if signed && width == 1 { 2 } else { width }
}

/// The type of coefficients under the internal rule.
fn internal_param(value: &[Decimal], input: FxType) -> Option<FxType>
    requires { IsType input }
    ensures value { result ≡ internal_param_of value.now input }
    ensures valid { IfSome result IsType }
{
    let signed = is_param_signed(value, input);
    let width = param_width(signed, input.width());
    if are_zero(value) {
        return Some(FxType::Num {
            signed,
            width,
            frac: 0,
        });
    }
    let Some(frac) = greatest_fit(value, signed, width) else {
        return None;
    };
    Some(FxType::Num {
        signed,
        width,
        frac,
    })
}

/// The type of a Gain's coefficients, from its list, its specification and the type of its input;
/// none where the internal rule finds no frac at which all of the list fits.
pub fn param_type(value: &[Decimal], spec: TypeSpec, input: FxType) -> Option<FxType>
    requires input { IsType input }
    requires spec { IsSpec spec }
    ensures value { result ≡ param_type_of value.now spec input }
    ensures valid { IfSome result IsType }
{
    match spec {
        TypeSpec::Fixed(kind) => Some(kind),
        TypeSpec::Internal => internal_param(value, input),
        TypeSpec::SameFirst => Some(input),
        TypeSpec::Auto => None,
    }
}
