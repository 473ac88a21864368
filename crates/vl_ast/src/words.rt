ghost use Rattle.std.specs.Prelude.{◌≡◌, ◌≤◌, ◌-◌, ◌^◌};

use std::marker::Model;

/// The bits of a word of this width (own).
pub fn mask_of(width: u32) -> u128
    requires { width ≤ 128 }
    ensures { result ≡ 2 ^ width - 1 }
{
    if width == 128 {
        u128::MAX
    } else {
        (1 << width) - 1
    }
}

/// A number below 2^128 as two words of 64 bits, since a `u128` stands at a multiple of 16 bytes and
/// would make each expression longer (own). Contracts see the number.
#[derive(Clone, Copy)]
pub struct Bits128 {
    high: u64,
    low: u64,
}

impl Model for Bits128 {
    ghost use Rattle.std.specs.Prelude.{ℕ, ◌+◌, ◌*◌, ◌/◌, ◌%◌, ◌^◌, ◌<◌};

    ghost Value = { ℕ };

    ghost view = { λ bits. bits.high * 2 ^ 64 + bits.low };

    ghost invariant = { λ bits. bits.low < 2 ^ 64 };

    ghost inverse = { λ number. record { high = number / 2 ^ 64; low = number % 2 ^ 64 } };
}

impl Bits128 {
    /// The words of a number.
    pub fn new(number: u128) -> Bits128
        ensures { result ≡ number }
    {
        Bits128 {
            high: (number >> 64) as u64,
            low: (number & 0xFFFF_FFFF_FFFF_FFFF) as u64,
        }
    }

    /// The number.
    pub fn get(self) -> u128
        ensures { result ≡ self }
    {
        (u128::from(self.high) << 64) | u128::from(self.low)
    }
}
