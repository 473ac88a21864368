/// An operation that shares multipliers (own; HDL Coder, resource sharing).
#[derive(Clone, Copy)]
pub struct Operation {
    /// The number of its kind; operations of one kind can be served by one multiplier.
    pub kind: u64,
    /// The place of its period among the periods.
    pub period: u64,
    /// Its level: those of a level are served before those of the next.
    pub level: u64,
}

/// The slots of a period (own).
#[derive(Clone, Copy)]
pub struct Span {
    /// The first slot that can serve an operation.
    pub start: u64,
    /// How many slots there are, from 0 on.
    pub have: u64,
}
