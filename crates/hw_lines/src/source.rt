//! What a chain is given: a source, and its uses.

use hw_net::Frame;

/// A net that is shown later (own).
#[derive(Clone, Copy)]
pub struct Source {
    /// The number of the net.
    pub from: u32,
    /// The frame in which it stands.
    pub frame: Frame,
    /// What a registered line shows for hits before 0.
    pub first: i128,
    /// Whether its lines are registered: no net of one may depend on the source in the same clock.
    pub registered: bool,
}

/// A reader of a source (own).
#[derive(Clone, Copy)]
pub struct Use {
    /// How many base samples later it sees the source.
    pub shift: u64,
    /// The reader's period in base samples.
    pub period: u32,
}
