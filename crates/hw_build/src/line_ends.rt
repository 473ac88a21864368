//! What the ends of lines with registers of their own ask.
ghost use Rattle.std.specs.Prelude.{◌≡◌, ◌+◌, ◌^◌, ◌<◌, ℕ, Some, OnOk, slice_get};
ghost use Rattle.dg_model.specs.Attributes.{attributes_of};
ghost use Rattle.dg_model.specs.Wires.{repeated};
ghost use Rattle.hw_build.specs.inner.EndSearch.{AsksAll, hub_spread, late_want};

use crate::asks::{Asked, Asks, ask_later};
use crate::firsts::first_entry;
use crate::wants::{Feed, Want};
use dg_model::{Block, Checked};
use hw_lines::Use;
use hw_net::Frame;
use hw_sched::own_width;

/// The element of a signal of this width that serves an element of a block.
fn element_in(width: u32, element: u32) -> u32
    ensures { result ≡ repeated width element }
{
    if width == 1 { 0 } else { element }
}

/// Asks for an element of a signal for each element of a block, shown later by registers that have
/// the block's entries first.
pub fn ask_late(
    asks: &mut Asks,
    checked: &Checked,
    block: u32,
    one: &Block,
    first: u32,
    width: u32,
    frame: Frame,
    to: Use,
) -> Asked
    requires is { slice_get checked.now.diagram.blocks block ≡ Some one.now }
    requires fits { (element : ℕ)
        → element < (attributes_of checked.now.diagram).width_at block 1
        → first + repeated width element < 2 ^ 32 }
    ensures { OnOk result (AsksAll asks.old.list.items asks.new.list.items
        asks.old.wants.items asks.new.wants.items (hub_spread first width)
        (late_want checked.now.diagram block first width frame to)
        ((attributes_of checked.now.diagram).width_at block 1)) }
{
    for element in 0..own_width(checked, block) {
        let hub = first + element_in(width, element);
        let initial = first_entry(checked, block, one, element);
        let feed = Feed {
            hub,
            frame,
            first: Some(initial),
        };
        ask_later(asks, Want { feed, to })?;
    }
    Ok(())
}
