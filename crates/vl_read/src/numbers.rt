ghost use Rattle.std.specs.Prelude.{◌≡◌, ◌≤◌, ◌<◌, [], ◌∷◌, length, IfSome};
ghost use Rattle.vl_ast.specs.Tokens.{base_of};
ghost use Rattle.vl_read.specs.inner.Lexemes.{number_after, dec_of, quote_place, sized_by, sized_after, sized_in, sized_of, begins_number, kind_by, kind_of};
ghost use Rattle.vl_read.specs.inner.LexemeSteps.{is_name, count_of, constant_of};

use crate::scan::Kind;
use fx_text::{SHORT_DIGITS, read_short};
use vl_ast::{Bits128, Sized};
use vl_names::is_identifier;

/// How many digits a number without base has at most (own).
const DEC_DIGITS: usize = 9;

/// How many digits a number with a base has at most (own).
const SIZED_DIGITS: usize = 128;

/// The number of digits in a base. `None` where a byte is no digit or the number isn't below 2^128.
fn number_in(base: u32, digits: &[u8]) -> Option<u128>
    requires low { 2 ≤ base }
    requires high { base ≤ 16 }
    ensures { result ≡ number_after base 0 digits.now }
{
    let mut number: u128 = 0;
    for byte in digits {
        match with_digit(base, number, *byte) {
            None => return None,
            Some(next) => number = next,
        }
    }
    Some(number)
}

/// A number with one more digit.
fn with_digit(base: u32, number: u128, byte: u8) -> Option<u128>
    requires low { 2 ≤ base }
    requires high { base ≤ 16 }
    ensures { result ≡ number_after base number (byte ∷ []) }
{
    match char::from(byte).to_digit(base) {
        None => None,
        Some(digit) => match number.checked_mul(u128::from(base)) {
            None => None,
            Some(shifted) => shifted.checked_add(u128::from(digit)),
        },
    }
}

/// A number of one to nine decimal digits.
#[tactic(auto, using(crate::proofs::ShortNumbers::number_below), unfolding(crate::specs::inner::Lexemes::dec_of))]
fn dec_of(digits: &[u8]) -> Option<u32>
    ensures value { result ≡ dec_of digits.now }
    ensures small { IfSome result (λ number. number < 1000000000) }
{
    if digits.is_empty() || digits.len() > DEC_DIGITS {
        return None;
    }
    match few_digits(digits) {
        None => None,
        Some(number) => Some(number as u32),
    }
}

/// The base that a letter names.
fn base_of(letter: u8) -> Option<u32>
    ensures { result ≡ base_of letter }
{
    if letter == b'b' || letter == b'B' {
        Some(2)
    } else if letter == b'd' || letter == b'D' {
        Some(10)
    } else if letter == b'h' || letter == b'H' {
        Some(16)
    } else {
        None
    }
}

/// The number of digits in a base, by a short way for few decimal ones.
fn digits_in(base: u32, digits: &[u8]) -> Option<u128>
    requires low { 2 ≤ base }
    requires high { base ≤ 16 }
    ensures { result ≡ number_after base 0 digits.now }
{
    if base == 10 && digits.len() <= SHORT_DIGITS {
        few_digits(digits)
    } else {
        number_in(base, digits)
    }
}

/// The number of at most 18 decimal digits.
#[tactic(auto, using(crate::proofs::ShortNumbers::short_is, crate::proofs::ShortNumbers::short_none))]
fn few_digits(digits: &[u8]) -> Option<u128>
    requires { length digits.now ≤ 18 }
    ensures { result ≡ number_after 10 0 digits.now }
{
    match read_short(digits) {
        None => None,
        Some(number) => Some(u128::from(number)),
    }
}

/// One to 128 digits in a base.
fn sized_by(width: u32, signed: bool, base: u32, digits: &[u8]) -> Option<Sized>
    requires low { 2 ≤ base }
    requires high { base ≤ 16 }
    ensures { result ≡ sized_by width signed base digits.now }
{
    if digits.is_empty() || digits.len() > SIZED_DIGITS {
        return None;
    }
    match digits_in(base, digits) {
        None => None,
        Some(bits) => Some(Sized {
            width,
            signed,
            bits: Bits128::new(bits),
        }),
    }
}

/// The letter of a base and the digits.
fn sized_after(width: u32, signed: bool, bytes: &[u8]) -> Option<Sized>
    ensures { result ≡ sized_after width signed bytes.now }
{
    match bytes {
        [] => None,
        [letter, digits @ ..] => match base_of(*letter) {
            None => None,
            Some(base) => sized_by(width, signed, base, digits),
        },
    }
}

/// What stands after the apostrophe: the mark of a signed number, if there is one, the letter of a
/// base and the digits.
fn sized_in(width: u32, bytes: &[u8]) -> Option<Sized>
    ensures { result ≡ sized_in width bytes.now }
{
    match bytes {
        [] => None,
        [b's' | b'S', after @ ..] => sized_after(width, true, after),
        _ => sized_after(width, false, bytes),
    }
}

/// Where the first apostrophe stands, or the length where there is none.
fn quote_at(bytes: &[u8]) -> usize
    ensures value { result ≡ quote_place bytes.now }
    ensures within { result ≤ length bytes.now }
{
    for (i, byte) in bytes.iter().enumerate() {
        if *byte == b'\'' {
            return i;
        }
    }
    bytes.len()
}

/// A number with its width and its base (IEEE 1364-2005, 3.5.1).
#[tactic(auto, using(crate::proofs::Digits::quote_some, crate::proofs::Digits::quote_none), unfolding(crate::specs::inner::Lexemes::sized_of))]
fn sized_of(bytes: &[u8]) -> Option<Sized>
    ensures { result ≡ sized_of bytes.now }
{
    let at = quote_at(bytes);
    if at >= bytes.len() {
        return None;
    }
    match dec_of(&bytes[..at]) {
        None => None,
        Some(width) => sized_in(width, &bytes[at + 1..]),
    }
}

/// Whether a lexeme begins with a decimal digit.
fn begins_number(lexeme: &[u8]) -> bool
    ensures { result ≡ begins_number lexeme.now }
{
    match lexeme {
        [] => false,
        [first, ..] => first.is_ascii_digit(),
    }
}

/// What a lexeme may be that is no identifier.
fn number_kind(lexeme: &[u8]) -> Kind
    ensures { result ≡ kind_by (dec_of lexeme.now) (sized_of lexeme.now) }
{
    match dec_of(lexeme) {
        Some(number) => Kind::Count(number),
        None => match sized_of(lexeme) {
            Some(number) => Kind::Constant(number),
            None => Kind::Fixed,
        },
    }
}

/// What a lexeme may be.
#[tactic(auto, using(crate::proofs::OneKind::number_first, crate::proofs::OneKind::other_first))]
pub fn kind_of(lexeme: &[u8]) -> Kind
    ensures { result ≡ kind_of lexeme.now }
{
    if begins_number(lexeme) {
        number_kind(lexeme)
    } else if is_identifier(lexeme) {
        Kind::Name
    } else {
        Kind::Fixed
    }
}

/// Whether a lexeme is an identifier.
#[tactic(auto, using(crate::proofs::OneKind::name_is))]
pub fn is_name(lexeme: &[u8]) -> bool
    ensures { result ≡ is_name (kind_of lexeme.now) }
{
    is_identifier(lexeme)
}

/// The number that a lexeme is, where it has no base.
#[tactic(auto, using(crate::proofs::OneKind::count_is))]
pub fn count_of(lexeme: &[u8]) -> Option<u32>
    ensures value { result ≡ count_of (kind_of lexeme.now) }
    ensures small { IfSome result (λ number. number < 1000000000) }
{
    dec_of(lexeme)
}

/// The number with its base that a lexeme is.
#[tactic(auto, using(crate::proofs::OneKind::constant_is))]
pub fn constant_of(lexeme: &[u8]) -> Option<Sized>
    ensures { result ≡ constant_of (kind_of lexeme.now) }
{
    sized_of(lexeme)
}
