use fx_io::{OutOfMemory, Text, Texts};
use std::fmt::{self, Debug, Display, Formatter, Write};
use thiserror::Error;

/// The first condition on a module that is broken, with the name or the names that it shows (own).
#[derive(Drop, Error)]
pub enum VlFault {
    /// A name is read or driven and isn't declared before, or needs a driver and has none.
    Undriven { name: Text },
    /// A name is declared or driven twice, or driven by what may not drive it.
    Doubly { name: Text },
    /// The assignments of these names read each other in a cycle, each the next, begun with the first
    /// in the text.
    CombLoop { names: Texts },
    /// A width isn't 1 to 128, or an item holds a faulty select, number, repetition or context.
    TooWide { name: Text },
    /// `clk` and `reset` aren't both unsigned inputs of one bit, or `clk` is read.
    NoReset { name: Text },
    /// The module or a port lacks an attribute in its range.
    NoAttribute { name: Text },
    /// Memory is wanting.
    OutOfMemory,
}

impl From<OutOfMemory> for VlFault {
    ghost use Rattle.std.specs.Prelude.{◌≡◌};
    ghost use Rattle.vl_check.specs.declared.fault.VlFault.TheVariants.{OutOfMemory};

    ghost from_gives = { λ _ fault. fault ≡ OutOfMemory };

    fn from(_refused: OutOfMemory) -> VlFault {
        VlFault::OutOfMemory
    }
}

impl Display for VlFault {
    fn fmt<W: Write>(&self, f: &mut Formatter<W>) -> fmt::Result {
        f.write_str(match self {
            VlFault::Undriven { .. } => "undriven",
            VlFault::Doubly { .. } => "doubly driven",
            VlFault::CombLoop { .. } => "combinational loop",
            VlFault::TooWide { .. } => "too wide",
            VlFault::NoReset { .. } => "no reset",
            VlFault::NoAttribute { .. } => "no attribute",
            VlFault::OutOfMemory => "out of memory",
        })
    }
}

impl Debug for VlFault {
    fn fmt<W: Write>(&self, f: &mut Formatter<W>) -> fmt::Result {
        Display::fmt(self, f)
    }
}
