//! What the registers of a block's state, or of its lines, have first.
ghost use Rattle.std.specs.Prelude.{◌≡◌, Some, slice_get};
ghost use Rattle.fx_type.specs.FxType.{IsType};
ghost use Rattle.dg_model.specs.Library.{row_of};
ghost use Rattle.dg_model.specs.Wires.{entry_of, repeated};
ghost use Rattle.hw_sched.specs.Chained.{first_list, stored_in};
ghost use Rattle.hw_build.specs.inner.Operands.{first_at, or_zero};

use dg_model::{Block, Checked, Kind};
use fx_round::to_stored;
use fx_type::{Decimal, FxType};
use hw_sched::own_width;

/// Where an element stands in a signal or list of this width.
pub fn place_in(width: usize, element: u32) -> usize
    ensures { result ≡ repeated width element }
{
    if width == 1 { 0 } else { element as usize }
}

/// The list parameter of a block of this kind, empty where it has none.
pub fn list_of(kind: &Kind) -> &[Decimal]
    ensures { result.now ≡ first_list (row_of kind.now).signal.lists }
{
    match kind.list() {
        Some(list) => list,
        None => &[],
    }
}

/// The entry of a list for an element, stored in a type; 0 where there is none.
fn stored_entry(list: &[Decimal], element: u32, kind: FxType) -> i128
    requires { IsType kind }
    ensures { result ≡ or_zero (stored_in kind (entry_of list.now element)) }
{
    fx_type::stored_is_one();
    match list.get(place_in(list.len(), element)) {
        Some(decimal) => to_stored(*decimal, kind),
        None => 0,
    }
}

/// What the registers of a block's state, or of its lines, have first for an element; past the last
/// element what they have for the last.
pub fn first_entry(checked: &Checked, block: u32, one: &Block, element: u32) -> i128
    requires { slice_get checked.now.diagram.blocks block ≡ Some one.now }
    ensures { result ≡ first_at checked.now.diagram block element }
{
    checked.keeps_rules();
    dg_tables::operations_prepare();
    let last = own_width(checked, block).saturating_sub(1);
    stored_entry(list_of(&one.kind), element.min(last), checked.result(block))
}
