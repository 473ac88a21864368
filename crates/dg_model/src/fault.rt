use crate::rule::Rule;
use fx_io::{OutOfMemory, Sizes, Text};

/// Why a check answers no (own).
#[derive(Drop)]
pub enum CheckFault {
    /// A rule is broken.
    Broken(RuleFault),
    /// Memory is wanting.
    OutOfMemory,
}

/// The first broken rule with its first place (own).
#[derive(Drop)]
pub struct RuleFault {
    /// The rule.
    pub rule: Rule,
    /// The path of the block that breaks it; the empty path is the whole model.
    pub place: Text,
    /// What is told beside the place.
    pub shown: Shown,
}

impl RuleFault {
    /// Frees the fault, so that crates above needn't prove how.
    pub fn discard(self) {
        drop(self);
    }
}

/// What is told of a broken rule (own).
#[derive(Drop)]
pub enum Shown {
    /// Nothing.
    Nothing,
    /// A block type, a parameter's name, or the part of the rule.
    Word(Text),
    /// The periods of the block and of a source that disagrees; 0 is a value that never changes.
    Periods { own: u32, other: u32 },
    /// Blocks of which each drives the next, and the last the first, without a delay.
    Cycle { blocks: Sizes },
    /// A cycle of blocks along which the latencies gain `total` samples.
    Latency { blocks: Sizes, total: i64 },
    /// The slots that the operations of one period need, and those that they have.
    Budget { period: u32, need: u64, have: u64 },
    /// The registers of the model, and its greatest latency in clocks.
    Size { storage: u64, latency: u64 },
}

impl From<OutOfMemory> for CheckFault {
    ghost use Rattle.std.specs.Prelude.{◌≡◌};
    ghost use Rattle.dg_model.specs.declared.fault.CheckFault.TheVariants.{OutOfMemory};

    ghost from_gives = { λ _ fault. fault ≡ OutOfMemory };

    fn from(_refused: OutOfMemory) -> CheckFault {
        CheckFault::OutOfMemory
    }
}
