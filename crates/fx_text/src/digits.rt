ghost use Rattle.std.specs.Prelude.{◌≡◌, ◌-◌, ◌^◌, ◌≤◌, true, false, length, MatchOption, min};
ghost use Rattle.std.specs.List.{list_all};
ghost use Rattle.std.specs.Char.{is_ascii_digit};
ghost use Rattle.std.specs.Str.Parse.{digits_value};

/// The most digits whose number surely fits 64 bits.
pub const SHORT_DIGITS: usize = 18;

/// Reads up to 18 digits as their number. `None` where a byte is no digit.
pub fn read_short(digits: &[u8]) -> Option<u64>
    requires { length digits.now ≤ 18 }
    ensures { MatchOption result (list_all is_ascii_digit digits.now ≡ false) (λ value.
        (list_all is_ascii_digit digits.now ≡ true) × (value ≡ digits_value 10 digits.now)) }
{
    let mut value = 0u64;
    for digit in digits {
        if !digit.is_ascii_digit() {
            return None;
        }
        value = value * 10 + u64::from(*digit - b'0');
    }
    Some(value)
}

/// Reads digits as their number; one that does not fit reads as the greatest that does. `None`
/// where a byte is no digit.
pub fn read_capped(digits: &[u8]) -> Option<u128>
    ensures { MatchOption result (list_all is_ascii_digit digits.now ≡ false) (λ value.
        (list_all is_ascii_digit digits.now ≡ true)
        × (value ≡ min (digits_value 10 digits.now) (2 ^ 128 - 1))) }
{
    let mut value = 0u128;
    for digit in digits {
        if !digit.is_ascii_digit() {
            return None;
        }
        value = value
            .saturating_mul(10)
            .saturating_add(u128::from(*digit - b'0'));
    }
    Some(value)
}
