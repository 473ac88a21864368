//! The type of a signal, and its range.
ghost use Rattle.std.specs.Prelude.{◌≡◌, ◌↔◌, IsTrue};
ghost use Rattle.fx_type.specs.FxType.{IsType, is_signed, width_of, frac_of, lowest_of, highest_of};

/// The type of a stored integer.
///
/// `Num` is valid with a signed width of 2 to 128 or an unsigned one of 1 to 127, and with a `frac`
/// of -64 to 128. `Logical` has the stored integers 0 and 1; arithmetic reads it as unsigned, with
/// width 1 and frac 0. Source: Fixed-Point Designer (`fixdt`), `boolean`; the bounds are own.
#[derive(Clone, Copy, Debug, PartialEq, Eq)]
pub enum FxType {
    /// A binary word with `frac` bits behind the binary point.
    Num { signed: bool, width: u8, frac: i16 },
    /// The type `boolean`.
    Logical,
}

impl FxType {
    /// Whether the type is valid. Source: own.
    pub fn is_valid(self) -> bool
        ensures { IsTrue result ↔ IsType self }
    {
        match self {
            FxType::Num {
                signed,
                width,
                frac,
            } => fx_num::is_word(width, signed) && -64 <= frac && frac <= 128,
            FxType::Logical => true,
        }
    }

    /// The least stored integer. Source: Fixed-Point Designer.
    pub fn lowest(self) -> i128
        requires { IsType self }
        ensures { result ≡ lowest_of self }
    {
        fx_num::lowest(self.width(), self.is_signed())
    }

    /// The greatest stored integer. Source: Fixed-Point Designer.
    pub fn highest(self) -> i128
        requires { IsType self }
        ensures { result ≡ highest_of self }
    {
        fx_num::highest(self.width(), self.is_signed())
    }

    /// Whether stored integers may be negative. Source: Fixed-Point Designer.
    pub fn is_signed(self) -> bool
        ensures { result ≡ is_signed self }
    {
        match self {
            FxType::Num { signed, .. } => signed,
            FxType::Logical => false,
        }
    }

    /// The number of bits of a stored integer. Source: Fixed-Point Designer.
    pub fn width(self) -> u8
        ensures { result ≡ width_of self }
    {
        match self {
            FxType::Num { width, .. } => width,
            FxType::Logical => 1,
        }
    }

    /// The number of bits behind the binary point. Source: Fixed-Point Designer.
    pub fn frac(self) -> i16
        ensures { result ≡ frac_of self }
    {
        match self {
            FxType::Num { frac, .. } => frac,
            FxType::Logical => 0,
        }
    }
}
