//! The entries of list parameters, as they are stored.
ghost use Rattle.std.specs.Prelude.{◌≡◌, Some, slice_get};
ghost use Rattle.fx_type.specs.FxType.{IsType};
ghost use Rattle.dg_model.specs.Attributes.{attributes_of};
ghost use Rattle.dg_model.specs.Equation.{StoresEntry};
ghost use Rattle.dg_model.specs.Wires.{repeated};
ghost use Rattle.dg_sim.specs.inner.Turns.{HasEntry};

use crate::turn::Turn;
use dg_tables::operations_prepare;
use fx_type::{Decimal, FxType};

/// Where an element stands in a signal or list of this width.
fn place_in(width: usize, element: u32) -> usize
    ensures { result ≡ repeated width element }
{
    if width == 1 { 0 } else { element as usize }
}

/// The entry of a list parameter for an element, stored in a type.
pub fn stored_entry(list: &[Decimal], element: u32, kind: FxType) -> i128
    requires kind { IsType kind }
    requires entry { HasEntry list.now element }
    ensures { StoresEntry list.now element kind result }
{
    let at = place_in(list.len(), element);
    fx_round::to_stored(list[at], kind)
}

/// The entry of a list parameter of the turn's block for its element, stored in the block's type.
pub fn own_stored<'a>(turn: Turn<'a>, list: &[Decimal]) -> i128
    requires there { slice_get turn.checked.now.diagram.blocks turn.place.block
        ≡ Some turn.block.now }
    requires entry { HasEntry list.now turn.place.element }
    ensures { StoresEntry list.now turn.entry.place.element
        ((attributes_of turn.entry.checked.now.diagram).type_at turn.entry.place.block 1) result }
{
    operations_prepare();
    turn.checked.keeps_rules();
    stored_entry(
        list,
        turn.place.element,
        turn.checked.result(turn.place.block),
    )
}
