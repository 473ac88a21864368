ghost use Rattle.std.specs.Prelude.{◌≡◌, ◌-◌, ◌<◌, pos, neg_ℤ, IsTrue, length};
ghost use Rattle.std.specs.Str.Parse.{starts_with_minus};
ghost use Rattle.fx_tables.specs.inner.Number.{IsMagnitude, IsNumber, IsReading};

use fx_text::{SHORT_DIGITS, read_capped, read_short};

/// The most digits of a whole number.
const MOST_DIGITS: usize = 64;
/// The magnitude of the least number of 128 bits with a sign.
const GREATEST_MAGNITUDE: u128 = 1 << 127;

/// What a field says as a whole number.
#[derive(Clone, Copy)]
pub(crate) enum Whole {
    /// It is no whole number.
    Not,
    /// The number does not fit 128 bits with a sign.
    Far,
    /// The number.
    Near(i128),
}

/// Reads an optional minus and 1 to 64 digits.
pub(crate) fn read_whole(text: &[u8]) -> Whole
    ensures { IsReading text.now result }
{
    if has_minus(text) {
        match read_magnitude(&text[1..]) {
            None => Whole::Not,
            Some(magnitude) => negative(magnitude),
        }
    } else {
        match read_magnitude(text) {
            None => Whole::Not,
            Some(magnitude) => positive(magnitude),
        }
    }
}

/// Whether a minus stands first.
#[inline(always)]
pub(crate) fn has_minus(text: &[u8]) -> bool
    ensures value { result ≡ starts_with_minus text.now }
    ensures some { IsTrue result → 0 < length text.now }
{
    !text.is_empty() && text[0] == b'-'
}

/// Minus the magnitude.
fn negative(magnitude: u128) -> Whole
    ensures { IsNumber (neg_ℤ (pos magnitude)) result }
{
    if magnitude < GREATEST_MAGNITUDE {
        Whole::Near(-(magnitude as i128))
    } else if magnitude == GREATEST_MAGNITUDE {
        Whole::Near(i128::MIN)
    } else {
        Whole::Far
    }
}

/// The magnitude itself.
fn positive(magnitude: u128) -> Whole
    ensures { IsNumber (pos magnitude) result }
{
    if magnitude < GREATEST_MAGNITUDE {
        Whole::Near(magnitude as i128)
    } else {
        Whole::Far
    }
}

/// Reads 1 to 64 digits; a number that does not fit reads as the greatest that does.
fn read_magnitude(digits: &[u8]) -> Option<u128>
    ensures { IsMagnitude digits.now result }
{
    if digits.is_empty() || digits.len() > MOST_DIGITS {
        return None;
    }
    if digits.len() <= SHORT_DIGITS {
        match read_short(digits) {
            None => None,
            Some(value) => Some(u128::from(value)),
        }
    } else {
        read_capped(digits)
    }
}
