//! What drives the input ports of a block.
ghost use Rattle.std.specs.Prelude.{◌≡◌, ◌<◌, length};
ghost use Rattle.dg_model.specs.Attributes.{attributes_of};
ghost use Rattle.dg_model.specs.Wires.{driver_of, period_into as period_into_of, type_into as type_into_of, width_into as width_into_of};

use crate::lines::first_into;
use dg_model::{Checked, Edge};
use fx_type::FxType;

/// The line into an input port of a block, found by a search in the order of the lines.
fn driver(checked: &Checked, place: u32, port: u32) -> Option<Edge>
    ensures { result ≡ driver_of checked.now.diagram place port }
{
    checked.keeps_rules();
    let edges = checked.diagram().edges.as_slice();
    let first = first_into(edges, place);
    for edge in &edges[first..] {
        let edge = *edge;
        if edge.to != place {
            return None;
        }
        if edge.to_port == port {
            return Some(edge);
        }
    }
    None
}

/// The type of what a block reads at an input port; Logical where no line ends there.
pub fn type_into(checked: &Checked, place: u32, port: u32) -> FxType
    ensures { result
        ≡ type_into_of checked.now.diagram (attributes_of checked.now.diagram) place port }
{
    checked.keeps_rules();
    match driver(checked, place, port) {
        Some(line) => checked.result(line.from),
        None => FxType::Logical,
    }
}

/// The width of the signal into the first input port of a block, 0 where it has none.
pub fn width_into(checked: &Checked, place: u32) -> u32
    ensures { result
        ≡ width_into_of checked.now.diagram (attributes_of checked.now.diagram) place 1 }
{
    checked.keeps_rules();
    match driver(checked, place, 1) {
        Some(line) => checked.width(line.from, line.from_port),
        None => 0,
    }
}

/// The period of the block that drives the first input port of a block; none where there is none.
pub fn period_into(checked: &Checked, place: u32) -> Option<u32>
    ensures { result
        ≡ period_into_of checked.now.diagram (attributes_of checked.now.diagram) place 1 }
{
    checked.keeps_rules();
    match driver(checked, place, 1) {
        Some(line) => checked.period(line.from),
        None => None,
    }
}

/// The width of the signal at the first output port of a block, or its own.
pub fn own_width(checked: &Checked, place: u32) -> u32
    requires there { place < length checked.now.diagram.blocks }
    ensures { result ≡ (attributes_of checked.now.diagram).width_at place 1 }
{
    checked.keeps_rules();
    checked.width(place, 1)
}
