use fx_io::{OutOfMemory, Text};

/// Why there is no design, or no flat module of one (own).
#[derive(Drop)]
pub enum HierFault {
    /// The bytes are no text of a design. They stop being the beginning of one at this line, counted
    /// from 1.
    Syntax { line: u64 },
    /// The first instance that isn't linked as it must be has this name.
    Link { name: Text },
    /// Memory is wanting.
    OutOfMemory,
}

impl From<OutOfMemory> for HierFault {
    ghost use Rattle.std.specs.Prelude.{◌≡◌};
    ghost use Rattle.vl_hier.specs.declared.refusal.HierFault.TheVariants.{OutOfMemory};

    ghost from_gives = { λ _ fault. fault ≡ OutOfMemory };

    fn from(_refused: OutOfMemory) -> HierFault {
        HierFault::OutOfMemory
    }
}
