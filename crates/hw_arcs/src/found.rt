use fx_io::{Longs, Periods, Sizes};

/// Blocks of which an arc leads from each to the next and from the last to the first.
#[derive(Drop)]
pub struct Gaining {
    /// The blocks, from the least on.
    pub blocks: Sizes,
    /// By how much the gains of the arcs are greater than their slacks.
    pub total: u64,
}

/// What arcs ask of latencies.
#[derive(Drop)]
pub enum Found {
    /// The least latencies that keep them, and for each one above 0 the number of an arc that asks
    /// for it.
    Least { lat: Longs, tight: Periods },
    /// A cycle that leaves none.
    Gains(Gaining),
}
