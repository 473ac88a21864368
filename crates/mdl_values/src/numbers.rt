//! Whole numbers.
ghost use Rattle.mdl_values.specs.Reads.{Finds};
ghost use Rattle.mdl_values.specs.Numbers.{IsNumberText};

use fx_text::read_capped;

/// Reads a whole number of these ends: digits alone, of which the first may be zeros. Source: own.
pub fn read_number(text: &[u8], low: u32, high: u32) -> Option<u32>
    ensures { Finds (IsNumberText low high text.now) result }
{
    if text.is_empty() {
        return None;
    }
    let Some(number) = read_capped(text) else {
        return None;
    };
    if number < u128::from(low) {
        return None;
    }
    if number > u128::from(high) {
        return None;
    }
    Some(number as u32)
}
