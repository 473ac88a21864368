//! What is given of an operation.
use hw_net::Frame;

/// A multiplication that shares its multiplier with others (own; HDL Coder, resource sharing).
#[derive(Clone, Copy)]
pub struct Operation {
    /// The frame in which its operands stand.
    pub frame: Frame,
    /// The clock of the frame in which it is served.
    pub slot: u64,
    /// The number of its multiplier.
    pub unit: u64,
    /// The numbers of the nets of its operands.
    pub left: u32,
    pub right: u32,
}
