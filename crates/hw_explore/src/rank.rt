ghost use Rattle.std.specs.Prelude.{◌↔◌, IsTrue};
ghost use Rattle.hw_explore.specs.Findings.{IsBetter};

/// By what good plans are compared, in this order (own).
#[derive(Clone, Copy)]
pub struct Rank {
    /// The multiplications of the module.
    pub multiplications: u64,
    /// The clocks of a base sample.
    pub cycles: u32,
    /// The greatest declared latency, in clocks.
    pub latency: u64,
    /// The multipliers that one kind of operations shares.
    pub multipliers: u32,
}

impl Rank {
    /// Whether this one is the better.
    pub fn is_better(&self, other: &Rank) -> bool
        ensures { IsTrue result ↔ IsBetter self.now other.now }
    {
        if self.multiplications != other.multiplications {
            return self.multiplications < other.multiplications;
        }
        if self.cycles != other.cycles {
            return self.cycles < other.cycles;
        }
        if self.latency != other.latency {
            return self.latency < other.latency;
        }
        self.multipliers < other.multipliers
    }
}
