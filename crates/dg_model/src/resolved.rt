use fx_io::Sizes;

/// A plan whose paths are found in a diagram (own).
#[derive(Drop)]
pub struct Resolved {
    /// Clocks in one base sample, 1 to 1024.
    pub cycles: u32,
    /// Multipliers that the operations of one kind share, 0 to 64; with 0 none is shared.
    pub multipliers: u32,
    /// How many registers stand behind each block, one count a block.
    pub stages: Sizes,
}
