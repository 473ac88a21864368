//! A number in decimal notation.
ghost use Rattle.std.specs.Prelude.{◌^◌, ◌<◌, ◌≤ℤ◌, pos, negsuc};

/// The digits times 10 to the exponent, with its sign. Source: own.
#[derive(Clone, Copy, Debug)]
pub struct Decimal {
    /// Whether the number stands behind a minus sign.
    pub negative: bool,
    /// All its digits as one whole number.
    pub digits: u64,
    /// The power of ten.
    pub exponent: i8,
    pub ghost eighteen_digits: { digits < 10 ^ 18 },
    pub ghost least_exponent: { negsuc 35 ≤ℤ exponent },
    pub ghost greatest_exponent: { exponent ≤ℤ pos 18 },
}
