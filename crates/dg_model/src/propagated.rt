use crate::port_widths::PortWidths;
use fx_io::{Periods, Sequence, Sizes};
use fx_type::FxType;

/// What propagation gives each block of a diagram (Simulink reference, signal attributes and sorted
/// order).
#[derive(Drop)]
pub struct Propagated {
    /// The widths at the output ports of each block.
    pub widths: PortWidths,
    /// The type of the outputs of each block; Logical where it has no output and nothing gives it one.
    pub types: FxTypes,
    /// The type of the coefficients of each Gain, and Logical at every other block.
    pub params: FxTypes,
    /// The period of each block in base samples; none where its value never changes.
    pub periods: Periods,
    /// Every block once, each after those whose values it needs in the same sample.
    pub order: Sizes,
}

/// A type for each block.
pub type FxTypes = Sequence<FxType>;
