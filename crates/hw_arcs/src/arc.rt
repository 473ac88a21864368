use fx_io::Sequence;

/// An arc from a block to another, which asks that the latency of its end is no less than that of
/// its source, more by `gain` and less by `slack` (own).
#[derive(Clone, Copy)]
pub struct Arc {
    /// The block that it leads from.
    pub from: u32,
    /// The block that it leads to.
    pub to: u32,
    /// Whether it asks for anything.
    pub counts: bool,
    /// By how much the end is later, in base samples.
    pub gain: u64,
    /// How much of that the end makes up for itself, in base samples.
    pub slack: u64,
}

/// Arcs, named by their places from 0.
pub type Arcs = Sequence<Arc>;
