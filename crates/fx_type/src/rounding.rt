//! How a number between two whole numbers is rounded.

/// A rounding mode. Source: Fixed-Point Designer.
#[derive(Clone, Copy, Debug)]
pub enum Rounding {
    /// Toward minus infinity.
    Floor,
    /// Toward plus infinity.
    Ceiling,
    /// Toward zero.
    Zero,
    /// To the nearest, ties toward plus infinity.
    Nearest,
    /// To the nearest, ties away from zero.
    Round,
    /// To the nearest, ties to the even one.
    Convergent,
}
