//! Whether a decimal is in range at a frac. Both sides of each inequality are divided by a power of
//! two, so that 128 bits hold them without loss, and no quotient is worked out.
ghost use Rattle.std.specs.Prelude.{◌≡◌, ◌+◌, ◌-◌, ◌*◌, ◌^◌, ◌/◌, ◌<◌, ◌≤◌, pos, negsuc, ◌≤ℤ◌, MatchOption};
ghost use Rattle.std.specs.Int.{int_gap};
ghost use Rattle.dg_types.specs.inner.TypeFit.{is_within, is_below as is_below_bound};

use fx_type::Decimal;

/// A number that is not 0, as a fraction with its sign.
#[derive(Clone, Copy)]
pub struct Fraction {
    pub negative: bool,
    pub over: u128,
    pub under: u128,
    pub ghost over_some: { 0 < over },
    pub ghost over_few: { over < 2 ^ 120 },
    pub ghost under_some: { 0 < under },
    pub ghost under_few: { under < 2 ^ 120 },
}

/// The digits, times what the exponent shifts them up by.
fn over_of(decimal: Decimal) -> u128
    ensures value { result ≡ decimal.digits * 10 ^ int_gap (pos 0) decimal.exponent }
    ensures few { result < 2 ^ 120 }
    ensures some { 0 < decimal.digits → 0 < result }
{
    let digits = u128::from(decimal.digits);
    if decimal.exponent >= 0 {
        digits * 10u128.pow(u32::from(decimal.exponent.unsigned_abs()))
    } else {
        digits
    }
}

/// What the exponent shifts the digits down by.
fn under_of(decimal: Decimal) -> u128
    ensures value { result ≡ 10 ^ int_gap decimal.exponent (pos 0) }
    ensures few { result < 2 ^ 120 }
    ensures some { 0 < result }
{
    if decimal.exponent < 0 {
        10u128.pow(u32::from(decimal.exponent.unsigned_abs()))
    } else {
        1
    }
}

/// A decimal that is not 0 as a fraction.
pub fn fraction_of(decimal: Decimal) -> Fraction
    requires { 0 < decimal.digits }
    ensures negative { result.negative ≡ decimal.negative }
    ensures over { result.over ≡ decimal.digits * 10 ^ int_gap (pos 0) decimal.exponent }
    ensures under { result.under ≡ 10 ^ int_gap decimal.exponent (pos 0) }
{
    Fraction {
        negative: decimal.negative,
        over: over_of(decimal),
        under: under_of(decimal),
    }
}

/// The number times 2 to the power `by`, where that is below 2 to the power 128.
fn shifted_up(number: u128, by: u32) -> Option<u128>
    requires { 0 < number }
    ensures { MatchOption result (2 ^ 128 ≤ number * 2 ^ by)
        (λ shifted. shifted ≡ number * 2 ^ by) }
{
    if by < 128 {
        number.checked_mul(1 << by)
    } else {
        None
    }
}

/// The number over 2 to the power `by`, without the rest.
fn shifted_down(number: u128, by: u32) -> u128
    ensures { result ≡ number / 2 ^ by }
{
    if by < 128 { number >> by } else { 0 }
}

/// Whether a number is below a bound by a half, or, of a negative number, above it by no more.
fn is_below(negative: bool, number: u128, half: u128, bound: u128) -> bool
    ensures { result ≡ is_below_bound negative number half bound }
{
    if negative {
        number.saturating_sub(half) <= bound
    } else {
        number < bound.saturating_sub(half)
    }
}

/// Whether the fraction over 2 to the power `by` + 1 is a number of so many bits.
fn fits_halved(fraction: Fraction, bits: u32, by: u32) -> bool
    requires some { 2 ≤ bits }
    requires few { bits ≤ 128 }
    requires small { by < 128 }
    ensures { result ≡ is_within fraction.negative bits fraction.over
        (fraction.under * 2 ^ (by + 1)) }
{
    let Some(bound) = shifted_up(fraction.under, bits) else {
        return true;
    };
    let number = if fraction.negative {
        ((fraction.over - 1) >> by) + 1
    } else {
        fraction.over >> by
    };
    is_below(fraction.negative, number, fraction.under, bound)
}

/// Whether the fraction times 2 to the power `by` - 1 is a number of so many bits.
fn fits_doubled(fraction: Fraction, bits: u32, by: u32) -> bool
    requires some { 2 ≤ bits }
    requires few { bits ≤ 128 }
    requires doubled { 1 ≤ by }
    ensures { result ≡ is_within fraction.negative bits (fraction.over * 2 ^ (by - 1))
        fraction.under }
{
    if by <= bits {
        let half = shifted_down(fraction.under, by);
        match shifted_up(fraction.under, bits - by) {
            Some(bound) => is_below(fraction.negative, fraction.over, half, bound),
            None => true,
        }
    } else {
        let half = shifted_down(fraction.under, bits);
        match shifted_up(fraction.over, by - bits) {
            Some(number) => is_below(fraction.negative, number, half, fraction.under),
            None => false,
        }
    }
}

/// Whether the fraction times 2 to the power `frac`, rounded to the nearest, is a number of so many
/// bits, one of them the sign.
pub fn fits(fraction: Fraction, bits: u32, frac: i16) -> bool
    requires some { 2 ≤ bits }
    requires few { bits ≤ 128 }
    requires low { negsuc 63 ≤ℤ frac }
    requires high { frac ≤ℤ pos 128 }
    ensures { result ≡ is_within fraction.negative bits
        (fraction.over * 2 ^ int_gap (pos 0) frac) (fraction.under * 2 ^ int_gap frac (pos 0)) }
{
    if frac < 0 {
        fits_halved(fraction, bits, (-1 - frac) as u32)
    } else {
        fits_doubled(fraction, bits, (frac + 1) as u32)
    }
}
