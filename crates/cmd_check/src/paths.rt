//! The path that makes a block so late.
ghost use Rattle.std.specs.Prelude.{◌≡◌, ◌<◌, ◌≤◌, All, drop, length};
ghost use Rattle.hw_latency.specs.Latency.{AreLatencies};
ghost use Rattle.hw_latency.specs.Weight.{latency_arcs};
ghost use Rattle.cmd_check.specs.Paths.{IsTightPath};
ghost use Rattle.cmd_check.specs.inner.Way.{IsSource};

use dg_model::{Checked, Resolved};
use hw_latency::{Latencies, block_at};

/// The block from which the edge of this number leads into a block.
fn source_of(checked: &Checked, block: u32, number: u32) -> u32
    requires { block < length checked.now.diagram.blocks }
    ensures is { IsSource checked.now.diagram block number result }
    ensures there { result < length checked.now.diagram.blocks }
{
    checked.keeps_rules();
    match checked.diagram().edges.as_slice().get(number as usize) {
        Some(edge) => edge.from,
        None => match block_at(checked, block).enable {
            Some(control) => control,
            None => block,
        },
    }
}

/// Writes the blocks along edges that are met with nothing to spare, from one without latency to
/// this one, at the end of the room, and tells where the first stands.
pub fn path_to(
    checked: &Checked,
    plan: &Resolved,
    latencies: &Latencies,
    end: u32,
    room: &mut [u32],
) -> usize
    requires latencies { AreLatencies checked.now.diagram plan.now latencies.now }
    requires there { end < length checked.now.diagram.blocks }
    requires room { length room.old ≡ length checked.now.diagram.blocks }
    ensures tight { IsTightPath (latency_arcs checked.now.diagram plan.now
        latencies.now.fed) latencies.now.lat end (drop result room.new) }
    ensures there { All (λ block. block < length checked.now.diagram.blocks)
        (drop result room.new) }
    ensures within { result ≤ length room.new }
    ensures room { length room.new ≡ length room.old }
{
    checked.keeps_rules();
    let tight = latencies.tight.as_slice();
    let mut start = room.len() - 1;
    room[start] = end;
    let mut block = end;
    while let Some(number) = tight[block as usize] {
        block = source_of(checked, block, number);
        start -= 1;
        room[start] = block;
    }
    start
}
