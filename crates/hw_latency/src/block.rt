ghost use Rattle.std.specs.Prelude.{◌≡◌, ◌<◌, Some, length, slice_get};

use dg_model::{Block, Checked};

/// The block at a place.
pub fn block_at(checked: &Checked, place: u32) -> &Block
    requires { place < length checked.now.diagram.blocks }
    ensures { slice_get checked.now.diagram.blocks place ≡ Some result.now }
{
    &checked.diagram().blocks.as_slice()[place as usize]
}
