//! How a block says the type of its output.

use crate::kind::FxType;

/// What a block says of its output's type. Source: Simulink reference, `OutDataTypeStr`.
#[derive(Clone, Copy, Debug)]
pub enum TypeSpec {
    /// This type.
    Fixed(FxType),
    /// The full type of the block's operation.
    Internal,
    /// The type of the first input.
    SameFirst,
    /// The type that the rest of the diagram gives.
    Auto,
}
