use fx_io::{Sequence, Text};

/// How the hardware of a diagram is to be built (own; the options are named after HDL Coder's clock-rate
/// pipelining, resource sharing and output pipelines).
#[derive(Drop)]
pub struct Plan {
    /// Clocks in one base sample, 1 to 1024.
    pub cycles: u32,
    /// Multipliers that the products and gains of one period share, 0 to 64; with 0 none is shared.
    pub multipliers: u32,
    /// The blocks that have registers behind them, each path at most once.
    pub pipelines: Pipelines,
}

impl Plan {
    /// Frees the plan, so that crates above needn't prove how.
    pub fn discard(self) {
        drop(self);
    }
}

/// Registers behind one block (own; HDL Coder's output pipeline).
#[derive(Drop)]
pub struct Pipeline {
    /// The path of the block, names joined by `/`.
    pub path: Text,
    /// How many registers stand behind each element of its outputs, 1 to 64.
    pub count: u32,
}

/// The pipelines of a plan in the order of its text.
pub type Pipelines = Sequence<Pipeline>;
