//! Decimals read from text.
ghost use Rattle.std.specs.Prelude.{◌≡◌, ℕ, ◌^◌, ◌≤◌, ◌↔◌, min, pos, ◌-ℤ◌, MatchResult, IfOk};
ghost use Rattle.std.specs.List.{AllPass};
ghost use Rattle.std.specs.Char.{is_ascii_digit};
ghost use Rattle.std.specs.Str.Parse.{digits_value_after};
ghost use Rattle.fx_round.specs.DecimalText.{signed, IsShort, IsDecimalOf, IsDecimal, IsDecimalText, IsLong};
ghost use Rattle.fx_round.specs.inner.PlainDecimals.{front_digits, after_digits, is_minus, after_sign, fraction_digits, after_fraction, one_or_two, signed_some, exponent_of, Explains};

use fx_type::Decimal;

/// The least number of 19 digits.
const NINETEEN_DIGITS: u64 = 1_000_000_000_000_000_000;

/// The digits that the text begins with, and what follows them.
fn split_digits(text: &[u8]) -> (&[u8], &[u8])
    ensures front { result.0.now ≡ front_digits text.now }
    ensures back { result.1.now ≡ after_digits text.now }
{
    for (i, byte) in text.iter().enumerate() {
        if !byte.is_ascii_digit() {
            return text.split_at(i);
        }
    }
    text.split_at(text.len())
}

/// Whether the text begins with a minus sign.
fn is_minus(text: &[u8]) -> bool
    ensures { result ≡ is_minus text.now }
{
    !text.is_empty() && text[0] == b'-'
}

/// What follows the text's sign.
fn after_sign(text: &[u8]) -> &[u8]
    ensures { result.now ≡ after_sign text.now }
{
    let Some((first, rest)) = text.split_first() else {
        return text;
    };
    if *first == b'+' || *first == b'-' {
        rest
    } else {
        text
    }
}

/// The digits behind a point, and what follows them.
fn split_fraction(text: &[u8]) -> (&[u8], &[u8])
    ensures front { result.0.now ≡ fraction_digits text.now }
    ensures back { result.1.now ≡ after_fraction text.now }
{
    let Some((first, rest)) = text.split_first() else {
        return text.split_at(0);
    };
    if *first == b'.' {
        split_digits(rest)
    } else {
        text.split_at(0)
    }
}

/// The number that one or two digits are.
fn one_or_two(text: &[u8]) -> Option<u8>
    ensures { result ≡ one_or_two text.now }
{
    if text.len() == 1 && text[0].is_ascii_digit() {
        Some(text[0] - b'0')
    } else if text.len() == 2 && text[0].is_ascii_digit() && text[1].is_ascii_digit() {
        Some((text[0] - b'0') * 10 + (text[1] - b'0'))
    } else {
        None
    }
}

/// The number with a minus sign or without one.
fn with_sign(negative: bool, size: u8) -> i16
    ensures { result ≡ signed negative size }
{
    if negative {
        -i16::from(size)
    } else {
        i16::from(size)
    }
}

/// The exponent whose sign and digits the text is.
fn written_exponent(text: &[u8]) -> Option<i16>
    ensures { result ≡ signed_some (is_minus text.now) (one_or_two (after_sign text.now)) }
{
    match one_or_two(after_sign(text)) {
        Some(size) => Some(with_sign(is_minus(text), size)),
        None => None,
    }
}

/// The exponent that the text is.
fn exponent_of(text: &[u8]) -> Option<i16>
    ensures { result ≡ exponent_of text.now }
{
    let Some((first, rest)) = text.split_first() else {
        return Some(0);
    };
    if *first != b'e' && *first != b'E' {
        return None;
    }
    written_exponent(rest)
}

/// The number `start` with further digits behind it, or the least number of 19 digits where it is
/// that or more.
fn read_on(start: u64, digits: &[u8]) -> u64
    requires start { start ≤ 10 ^ 18 }
    requires digits { AllPass is_ascii_digit digits.now }
    ensures value { (n : ℕ) → start ≡ min n (10 ^ 18)
        → result ≡ min (digits_value_after 10 n digits.now) (10 ^ 18) }
    ensures bound { result ≤ 10 ^ 18 }
{
    let mut number = start;
    for byte in digits {
        let digit = u64::from(byte.saturating_sub(b'0'));
        number = (number * 10 + digit).min(NINETEEN_DIGITS);
    }
    number
}

/// Why a text is no decimal.
#[derive(Clone, Copy)]
pub enum DecimalFault {
    /// It does not have the form of one.
    NotANumber,
    /// It has more than 18 digits behind its leading zeros or behind its point, or an exponent past
    /// 18 either way.
    TooLong,
}

/// The decimal of these parts, if it is short.
fn decimal_of(
    negative: bool,
    digits: u64,
    behind: usize,
    written: i16,
) -> Result<Decimal, DecimalFault>
    ensures { MatchResult result
        (λ d. IsShort digits behind written × (d.negative ≡ negative) × (d.digits ≡ digits)
        × (d.exponent ≡ written -ℤ pos behind))
        (λ fault. (fault ≡ DecimalFault.TooLong) × (¬ IsShort digits behind written)) }
{
    if digits >= NINETEEN_DIGITS {
        return Err(DecimalFault::TooLong);
    }
    if behind > 18 {
        return Err(DecimalFault::TooLong);
    }
    if written < -18 {
        return Err(DecimalFault::TooLong);
    }
    if written > 18 {
        return Err(DecimalFault::TooLong);
    }
    Ok(Decimal {
        negative,
        digits,
        exponent: (written - behind as i16) as i8,
    })
}

/// Reads a decimal that is no word.
fn read_number(text: &[u8]) -> Result<Decimal, DecimalFault>
    ensures { MatchResult result (IsDecimalOf text.now) (Explains text.now) }
{
    let (whole, rest) = split_digits(after_sign(text));
    let (fraction, tail) = split_fraction(rest);
    if whole.len() + fraction.len() == 0 {
        return Err(DecimalFault::NotANumber);
    }
    match exponent_of(tail) {
        None => Err(DecimalFault::NotANumber),
        Some(written) => {
            let digits = read_on(read_on(0, whole), fraction);
            decimal_of(is_minus(text), digits, fraction.len(), written)
        }
    }
}

/// Reads a decimal: an optional sign, digits with at most one point and at least one digit, and
/// optionally `e` or `E`, an optional sign and one or two digits. `true` is 1 and `false` is 0.
/// Source: own.
pub fn read_decimal(text: &[u8]) -> Result<Decimal, DecimalFault>
    ensures ok { IfOk result (IsDecimal text.now) }
    ensures not_a_number { (result ≡ Err DecimalFault.NotANumber) ↔ (¬ IsDecimalText text.now) }
    ensures too_long { (result ≡ Err DecimalFault.TooLong) ↔ IsLong text.now }
{
    if text == b"true".as_slice() {
        Ok(Decimal {
            negative: false,
            digits: 1,
            exponent: 0,
        })
    } else if text == b"false".as_slice() {
        Ok(Decimal {
            negative: false,
            digits: 0,
            exponent: 0,
        })
    } else {
        read_number(text)
    }
}
