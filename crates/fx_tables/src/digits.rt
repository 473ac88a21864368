ghost use Rattle.std.specs.Prelude.{◌≡◌, ◌+◌, ◌*◌, ◌-◌, ◌<◌, IsTrue, IfSome, true, length, drop, slice_index, if◌then◌else◌};
ghost use Rattle.std.specs.Char.{is_ascii_digit};
ghost use Rattle.fx_tables.specs.Fields.{is_blank, fields_of};
ghost use Rattle.fx_tables.specs.inner.Digits.{IsRunOfDigits};

use crate::cut::is_blank;
use fx_text::SHORT_DIGITS;

/// The number that the digits at the start of a text write, and what follows them.
#[derive(Clone, Copy)]
pub(crate) struct Digits<'a> {
    pub(crate) value: u64,
    pub(crate) tail: &'a [u8],
}

/// Reads 1 to 18 digits before a blank or the end of the line.
#[inline(always)]
pub(crate) fn read_digits(text: &[u8]) -> Option<Digits<'_>>
    ensures { IfSome result (λ digits. IsRunOfDigits text.now digits.value digits.tail.now) }
{
    match read_few(text) {
        Some(digits) => Some(digits),
        None => read_run(text),
    }
}

/// Reads 1 to 3 digits before a blank. It does not branch on how many there are, which is seldom
/// foreseen.
#[inline(always)]
fn read_few(text: &[u8]) -> Option<Digits<'_>>
    ensures { IfSome result (λ digits. IsRunOfDigits text.now digits.value digits.tail.now) }
{
    if text.len() < 4 || !text[0].is_ascii_digit() {
        return None;
    }
    let second = text[1].is_ascii_digit();
    let third = second & text[2].is_ascii_digit();
    let length = 1 + usize::from(second) + usize::from(third);
    if !is_blank(text[length]) {
        return None;
    }
    let one = u64::from(text[0] - b'0');
    let two = with_digit(one, second, text[1]);
    Some(Digits {
        value: with_digit(two, third, text[2]),
        tail: behind_blank(text, length),
    })
}

/// The number with one digit more, where it is there.
#[inline(always)]
fn with_digit(value: u64, is_there: bool, digit: u8) -> u64
    requires digit { IsTrue is_there → IsTrue (is_ascii_digit digit) }
    requires small { value < 100 }
    ensures value { result ≡ (if is_there then value * 10 + (digit - 48) else value) }
    ensures small { result < value * 10 + 10 }
{
    let longer = value * 10 + u64::from(digit.wrapping_sub(b'0'));
    if is_there { longer } else { value }
}

/// Reads 1 to 18 digits before a blank or the end of the line, one by one.
fn read_run(text: &[u8]) -> Option<Digits<'_>>
    ensures { IfSome result (λ digits. IsRunOfDigits text.now digits.value digits.tail.now) }
{
    let mut value = 0u64;
    for (length, byte) in text.iter().enumerate() {
        if !byte.is_ascii_digit() {
            if length == 0 || !is_blank(*byte) {
                return None;
            }
            return Some(Digits {
                value,
                tail: behind_blank(text, length),
            });
        }
        if length == SHORT_DIGITS {
            return None;
        }
        value = value * 10 + u64::from(*byte - b'0');
    }
    if text.is_empty() {
        return None;
    }
    Some(Digits {
        value,
        tail: &text[text.len()..],
    })
}

/// What follows the blank at a place.
#[inline(always)]
fn behind_blank(text: &[u8], place: usize) -> &[u8]
    requires within { place < length text.now }
    requires blank { is_blank (slice_index text.now place) ≡ true }
    ensures { fields_of result.now ≡ fields_of (drop place text.now) }
{
    &text[place + 1..]
}
