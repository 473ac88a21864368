ghost use Rattle.std.specs.Prelude.{◌≡◌, ◌<◌, MatchResult};
ghost use Rattle.fx_tables.specs.Stimulus.{hits_at, is_dash, field_fault, cell_of};

use crate::number::{Whole, read_whole};
use crate::table::{Column, TableCause};

/// Whether a number stands in a column of this period at a sample.
#[inline(always)]
pub(crate) fn hits(period: u32, sample: u64) -> bool
    requires { 0 < period }
    ensures { result ≡ hits_at period sample }
{
    period == 1 || sample % u64::from(period) == 0
}

/// Whether the field is the one that stands where no number does.
fn is_dash(field: &[u8]) -> bool
    ensures { result ≡ is_dash field.now }
{
    field.len() == 1 && field[0] == b'-'
}

/// Reads the field of a column at a sample: its number, or 0 where none stands.
pub(crate) fn read_field(field: &[u8], column: &Column, sample: u64) -> Result<i128, TableCause>
    requires { 0 < column.now.period }
    ensures { MatchResult result
        (λ value. (field_fault sample column.now field.now ≡ None) × (value ≡ cell_of field.now))
        (λ cause. field_fault sample column.now field.now ≡ Some cause) }
{
    let Column { low, high, period } = *column;
    let hit = hits(period, sample);
    if is_dash(field) {
        return if hit {
            Err(TableCause::DashAtHit)
        } else {
            Ok(0)
        };
    }
    match read_whole(field) {
        Whole::Not => Err(TableCause::NotWhole),
        _ if !hit => Err(TableCause::NumberOffHit),
        Whole::Near(value) if low <= value && value <= high => Ok(value),
        _ => Err(TableCause::OutOfRange),
    }
}
