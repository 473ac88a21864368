ghost use Rattle.std.specs.Prelude.{◌≡◌, ◌<◌, length, slice_get};
ghost use Rattle.dg_model.specs.Attributes.{attributes_of};
ghost use Rattle.dg_model.specs.Library.{row_of};
ghost use Rattle.hw_sched.specs.Slots.{right_of as right_of_block, right_type};

use crate::drivers::type_into;
use dg_model::{Checked, FullRule, Kind};
use fx_type::FxType;
use hw_latency::block_at;

/// The type of the second operand of a block of this kind: of a coefficient or of input 2; Logical
/// where it doesn't multiply.
fn right_by(checked: &Checked, place: u32, kind: &Kind) -> FxType
    requires there { place < length checked.now.diagram.blocks }
    ensures { result ≡ right_type checked.now.diagram (attributes_of checked.now.diagram) place
        (row_of kind.now).types.full }
{
    match kind.full() {
        FullRule::FullScaled { .. } => checked.param(place),
        FullRule::FullProduct => type_into(checked, place, 2),
        FullRule::NoFull
        | FullRule::FullSum { .. }
        | FullRule::UnionOfTwo
        | FullRule::UnionOfEnds => FxType::Logical,
    }
}

/// The type of the second operand of a block.
pub fn right_of(checked: &Checked, place: u32) -> FxType
    requires there { place < length checked.now.diagram.blocks }
    ensures { result ≡ right_of_block checked.now.diagram (attributes_of checked.now.diagram) place
        (slice_get checked.now.diagram.blocks place) }
{
    right_by(checked, place, &block_at(checked, place).kind)
}
