use crate::diagram::Block;
use fx_io::{Sequence, Text};

/// The blocks and lines of a model before its subsystems are taken apart (own).
#[derive(Drop)]
pub struct Nested {
    /// The blocks of all Systems in file order.
    pub blocks: NestedBlocks,
    /// The lines of all Systems, each with one end.
    pub lines: NestedLines,
}

/// A block of one System (Simulink reference, subsystems).
#[derive(Drop)]
pub struct NestedBlock {
    /// Its name in its System.
    pub name: Text,
    /// The SubSystem whose System holds it; none is the root.
    pub parent: Option<u32>,
    /// What it is.
    pub part: Part,
}

/// What a block of a System is (own).
#[derive(Drop)]
pub enum Part {
    /// A block that stands in the flat diagram as it is.
    Plain(Block),
    /// An Inport with its number, and the block that it becomes.
    In(Block, u32),
    /// An Outport with its number, and the block that it becomes.
    Out(Block, u32),
    /// A subsystem.
    SubSystem,
    /// An EnablePort; `reset` says that states begin anew when the subsystem is enabled.
    Enable { reset: bool },
}

/// A line from an output port to one end (Simulink reference, `Line` and `Branch`).
#[derive(Clone, Copy, Debug)]
pub struct NestedLine {
    /// The block that drives the line.
    pub from: u32,
    /// Its output port, from 1.
    pub from_port: u32,
    /// The block that reads the line.
    pub to: u32,
    /// Where it reads it.
    pub target: Target,
}

/// The end of a line (Simulink reference, `DstPort`).
#[derive(Clone, Copy, Debug)]
pub enum Target {
    /// An input port, from 1.
    Port(u32),
    /// The control of an enabled subsystem.
    Enable,
}

/// The blocks of all Systems in file order.
pub type NestedBlocks = Sequence<NestedBlock>;
/// The lines of all Systems.
pub type NestedLines = Sequence<NestedLine>;
