ghost use Rattle.std.specs.Prelude.{◌≡◌, ◌^◌, ◌<◌, pos, neg_ℤ, IfSome, if◌then◌else◌};
ghost use Rattle.fx_tables.specs.Fields.{fields_of};
ghost use Rattle.fx_tables.specs.inner.Digits.{IsFirstNumber, IsFirstCell};

use crate::cut::{is_blank, skip_blanks};
use crate::digits::read_digits;
use crate::field::hits;
use crate::number::has_minus;
use crate::table::Column;

/// The cell of the first field of a line, and what follows that field.
#[derive(Clone, Copy)]
pub(crate) struct CellCut<'a> {
    pub(crate) value: i128,
    pub(crate) tail: &'a [u8],
}

/// The number that is the first field of a line, and what follows it.
#[derive(Clone, Copy)]
struct NumberCut<'a> {
    value: i64,
    tail: &'a [u8],
}

/// Cuts the first field off a line in one go where it is what nearly every field is, a number of up
/// to 18 digits that is good in its column.
#[inline(always)]
pub(crate) fn cut_cell<'a>(line: &'a [u8], column: &Column, sample: u64) -> Option<CellCut<'a>>
    requires { 0 < column.now.period }
    ensures { IfSome result (λ cell.
        IsFirstCell line.now column.now sample cell.value cell.tail.now) }
{
    let Some(NumberCut { value, tail }) = cut_number(line) else {
        return None;
    };
    let value = i128::from(value);
    let Column { low, high, period } = *column;
    if hits(period, sample) && low <= value && value <= high {
        Some(CellCut { value, tail })
    } else {
        None
    }
}

/// Cuts the first field off a line where it is a number of up to 18 digits.
#[inline(always)]
fn cut_number(line: &[u8]) -> Option<NumberCut<'_>>
    ensures { IfSome result (λ number. IsFirstNumber line.now number.value number.tail.now) }
{
    let field = first_field(line);
    let minus = has_minus(field);
    let digits = read_digits(&field[usize::from(minus)..])?;
    Some(NumberCut {
        value: with_sign(digits.value, minus),
        tail: digits.tail,
    })
}

/// The line without blanks before its first field, where mostly there are none.
#[inline(always)]
fn first_field(line: &[u8]) -> &[u8]
    ensures { fields_of result.now ≡ fields_of line.now }
{
    if line.is_empty() || !is_blank(line[0]) {
        return line;
    }
    skip_blanks(line)
}

/// The number, or minus the number.
#[inline(always)]
fn with_sign(value: u64, minus: bool) -> i64
    requires { value < 10 ^ 18 }
    ensures { result ≡ (if minus then neg_ℤ (pos value) else pos value) }
{
    let value = value as i64;
    if minus { -value } else { value }
}
