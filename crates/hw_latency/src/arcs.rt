ghost use Rattle.std.specs.Prelude.{◌≡◌, ◌<◌, IfOk, OnOk, length};
ghost use Rattle.hw_arcs.specs.Found.{AreKnown};
ghost use Rattle.dg_model.specs.LatencyEdges.{asks_ever as asks_ever_of};
ghost use Rattle.dg_model.specs.Library.{row_of};
ghost use Rattle.dg_model.specs.PlanOf.{IsPlanOf};
ghost use Rattle.hw_latency.specs.Weight.{latency_arcs};
ghost use Rattle.hw_latency.specs.Control.{control_ever};
ghost use Rattle.hw_latency.specs.inner.ArcLists.{IsArcPut, IsControlPut};

use crate::block::block_at;
use crate::weight::arc_between;
use dg_model::{Asking, Block, Checked, Kind, Resolved};
use fx_io::OutOfMemory;
use hw_arcs::Arc;
use std::alloc::Global;

/// Whether a block of this kind asks at some time whether it is enabled.
fn asks_ever(kind: &Kind) -> bool
    ensures { result ≡ asks_ever_of (row_of kind.now).timing.asks }
{
    match kind.row().asks {
        Asking::Never => false,
        Asking::Now | Asking::Before => true,
    }
}

/// The control that a block asks at some time.
pub fn control_of(block: &Block) -> Option<u32>
    ensures { result ≡ control_ever block.now }
{
    if asks_ever(&block.kind) {
        block.enable
    } else {
        None
    }
}

/// Puts what an edge from a block to another asks at the end.
fn put_arc(
    checked: &Checked,
    plan: &Resolved,
    fed: &[bool],
    arcs: &mut Vec<Arc>,
    from: u32,
    to: u32,
) -> Result<(), OutOfMemory>
    requires plan { IsPlanOf checked.now.diagram plan.now }
    requires fed { length fed.now ≡ length checked.now.diagram.blocks }
    requires from { from < length checked.now.diagram.blocks }
    requires to { to < length checked.now.diagram.blocks }
    ensures { OnOk result
        (IsArcPut checked.now.diagram plan.now fed.now arcs.old.items arcs.new.items from to) }
{
    let arc = arc_between(checked, plan, fed, from, to);
    arcs.push(arc)?;
    Ok(())
}

/// Puts what the edge from a block's control asks at the end, where the block asks it at some time.
fn put_control(
    checked: &Checked,
    plan: &Resolved,
    fed: &[bool],
    arcs: &mut Vec<Arc>,
    place: u32,
) -> Result<(), OutOfMemory>
    requires plan { IsPlanOf checked.now.diagram plan.now }
    requires fed { length fed.now ≡ length checked.now.diagram.blocks }
    requires there { place < length checked.now.diagram.blocks }
    ensures { OnOk result
        (IsControlPut checked.now.diagram plan.now fed.now arcs.old.items arcs.new.items place) }
{
    checked.keeps_rules();
    let block = block_at(checked, place);
    let Some(control) = control_of(block) else {
        return Ok(());
    };
    put_arc(checked, plan, fed, arcs, control, place)
}

/// What each edge for latency asks, by the edge's number.
pub fn arcs_of(
    alloc: Global,
    checked: &Checked,
    plan: &Resolved,
    fed: &[bool],
) -> Result<Vec<Arc>, OutOfMemory>
    requires plan { IsPlanOf checked.now.diagram plan.now }
    requires fed { length fed.now ≡ length checked.now.diagram.blocks }
    ensures is { IfOk result (λ arcs.
        arcs.items ≡ latency_arcs checked.now.diagram plan.now fed.now) }
    ensures known { IfOk result (λ arcs. AreKnown arcs.items (length checked.now.diagram.blocks)) }
{
    checked.keeps_rules();
    let diagram = checked.diagram();
    let edges = diagram.edges.as_slice();
    let blocks = diagram.blocks.as_slice();
    let mut arcs = Vec::new(alloc);
    for edge in edges {
        let edge = *edge;
        put_arc(checked, plan, fed, &mut arcs, edge.from, edge.to)?;
    }
    for place in 0..blocks.len() {
        put_control(checked, plan, fed, &mut arcs, place as u32)?;
    }
    Ok(arcs)
}
