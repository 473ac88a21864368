use fx_io::OutOfMemory;
use thiserror::Error;

/// Why there is no tree.
#[derive(Clone, Copy, Debug, Error)]
pub enum MdlFault {
    /// The bytes are no MDL text. They stop being the beginning of one at this line, counted from
    /// 1.
    #[error("line {line}: not MDL text")]
    Syntax { line: u64 },
    /// Memory is wanting.
    #[error("out of memory")]
    OutOfMemory,
}

impl From<OutOfMemory> for MdlFault {
    ghost use Rattle.std.specs.Prelude.{◌≡◌};
    ghost use Rattle.mdl_text.specs.declared.fault.MdlFault.TheVariants.{OutOfMemory};

    ghost from_gives = { λ _ fault. fault ≡ OutOfMemory };

    fn from(_refused: OutOfMemory) -> MdlFault {
        MdlFault::OutOfMemory
    }
}
