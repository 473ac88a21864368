//! What a block reads and asks in its own sample.
ghost use Rattle.std.specs.Prelude.{◌≡◌};
ghost use Rattle.dg_model.specs.Instant.{is_now};
ghost use Rattle.dg_model.specs.Library.{row_of};
ghost use Rattle.dg_sort.specs.Control.{control_now as control_now_of};

use dg_model::{Asking, Block, Kind, Reading};

/// Whether a block of this kind reads its inputs in its own sample, by whether its input is slower.
pub fn reads_now(kind: &Kind, slower: bool) -> bool
    ensures { result ≡ is_now (row_of kind.now).timing.reads slower }
{
    match kind.row().reads {
        Reading::Now => true,
        Reading::Before => false,
        Reading::BeforeIfSlower => !slower,
    }
}

/// The control that a block asks in its own sample, where it asks one.
pub fn control_now(block: &Block) -> Option<u32>
    ensures { result ≡ control_now_of block.now }
{
    match block.kind.row().asks {
        Asking::Now => block.enable,
        Asking::Never | Asking::Before => None,
    }
}
