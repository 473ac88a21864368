use crate::kind::Kind;
use crate::path::Path;
use fx_io::Sequence;
use fx_type::{Decimal, Rounding, TypeSpec};

/// A flat block diagram: subsystems are taken apart, and every signal line is one edge from an output
/// port to an input port (Simulink reference, block diagrams; flattening own).
#[derive(Drop)]
pub struct Diagram {
    /// The blocks in file order. A block is named by its place here, from 0.
    pub blocks: Blocks,
    /// The edges, ordered by destination block and then by destination port.
    pub edges: Edges,
}

/// A signal line from an output port to an input port (Simulink reference, signal lines).
#[derive(Clone, Copy, Debug)]
pub struct Edge {
    /// The block that drives the line.
    pub from: u32,
    /// Its output port, from 1.
    pub from_port: u32,
    /// The block that reads the line.
    pub to: u32,
    /// Its input port, from 1.
    pub to_port: u32,
}

/// A block with its parameters (Simulink reference, block parameters).
#[derive(Drop)]
pub struct Block {
    /// The names from the root to the block, joined by `/`; a `/` inside a name is written `//`.
    pub path: Path,
    /// What the block does.
    pub kind: Kind,
    /// How many input ports it has.
    pub inputs: u32,
    /// How many output ports it has.
    pub outputs: u32,
    /// How the type of its output is chosen (`OutDataTypeStr`).
    pub result: TypeSpec,
    /// How a result is rounded (`RndMeth`).
    pub rounding: Rounding,
    /// Whether a result out of range goes to the nearest end, and does not wrap
    /// (`SaturateOnIntegerOverflow`).
    pub saturate: bool,
    /// How its period is chosen (`SampleTime`).
    pub period: PeriodSpec,
    /// The `EnableTest` block of the enabled subsystem that holds the block.
    pub enable: Option<u32>,
}

/// How a block's period is chosen (Simulink reference, `SampleTime`).
#[derive(Clone, Copy, Debug)]
pub enum PeriodSpec {
    /// From its sources, -1 in the file.
    Inherit,
    /// The value never changes, `inf` in the file.
    Constant,
    /// One value in so many units of time.
    Every(Decimal),
}

/// The blocks of a diagram in file order.
pub type Blocks = Sequence<Block>;
/// The edges of a diagram.
pub type Edges = Sequence<Edge>;

/// Frees the blocks of a diagram, so that crates above needn't prove how.
pub fn discard(blocks: Blocks) {
    drop(blocks);
}
