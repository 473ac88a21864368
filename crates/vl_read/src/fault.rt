use fx_io::OutOfMemory;
use std::fmt::{self, Debug, Display, Formatter, Write};
use thiserror::Error;

/// Why there is no module (own).
#[derive(Clone, Copy, Error)]
pub enum VlSyntax {
    /// The bytes are no text of the subset. They stop being the beginning of one at this line, counted from 1.
    Syntax { line: u64 },
    /// Memory is wanting.
    OutOfMemory,
}

impl From<OutOfMemory> for VlSyntax {
    ghost use Rattle.std.specs.Prelude.{◌≡◌};
    ghost use Rattle.vl_read.specs.declared.fault.VlSyntax.TheVariants.{OutOfMemory};

    ghost from_gives = { λ _ fault. fault ≡ OutOfMemory };

    fn from(_refused: OutOfMemory) -> VlSyntax {
        VlSyntax::OutOfMemory
    }
}

impl Display for VlSyntax {
    fn fmt<W: Write>(&self, f: &mut Formatter<W>) -> fmt::Result {
        match self {
            VlSyntax::Syntax { line } => write!(f, "line {line}: not in the Verilog subset"),
            VlSyntax::OutOfMemory => f.write_str("out of memory"),
        }
    }
}

impl Debug for VlSyntax {
    fn fmt<W: Write>(&self, f: &mut Formatter<W>) -> fmt::Result {
        Display::fmt(self, f)
    }
}
