//! How late root outputs are in clocks.
ghost use Rattle.std.specs.Prelude.{◌≡◌, ◌<◌, Some, length, map};
ghost use Rattle.math_list.specs.Numbers.{numbers_from, greatest};
ghost use Rattle.dg_model.specs.Attributes.{attributes_of};
ghost use Rattle.hw_latency.specs.Latency.{AreLatencies};
ghost use Rattle.hw_sched.specs.inner.Counts.{capped, is_output as is_output_of, is_root_output as is_root_output_of, output_latency as output_latency_of};

use crate::drivers::width_into;
use dg_model::{Block, Checked, Resolved};
use hw_latency::{Latencies, block_at};

/// Whether a block is a root output.
fn is_root_output(block: &Block) -> bool
    ensures { result ≡ is_root_output_of (Some block.now) }
{
    block.kind.row().role.output_number().is_some()
}

/// Whether a block is a root output of some elements.
fn is_output(checked: &Checked, place: u32) -> bool
    requires there { place < length checked.now.diagram.blocks }
    ensures { result
        ≡ is_output_of checked.now.diagram (attributes_of checked.now.diagram) place }
{
    is_root_output(block_at(checked, place)) && width_into(checked, place) > 0
}

/// How late a block is in clocks as a root output, saturating; 0 where it is none.
fn output_latency(
    checked: &Checked,
    plan: &Resolved,
    latencies: &Latencies,
    ready: &[u64],
    place: u32,
) -> u128
    requires latencies { AreLatencies checked.now.diagram plan.now latencies.now }
    requires ready { length ready.now ≡ length checked.now.diagram.blocks }
    requires there { place < length checked.now.diagram.blocks }
    ensures { result ≡ capped (output_latency_of checked.now.diagram
        (attributes_of checked.now.diagram) plan.now latencies.now.lat ready.now place) }
{
    if !is_output(checked, place) {
        return 0;
    }
    let lat = u128::from(latencies.lat.as_slice()[place as usize]);
    let clocks = lat.saturating_mul(u128::from(plan.cycles));
    clocks.saturating_add(u128::from(ready[place as usize]))
}

/// The greatest latency of root outputs in clocks, saturating; 0 where there are none.
pub fn latest_output(
    checked: &Checked,
    plan: &Resolved,
    latencies: &Latencies,
    ready: &[u64],
) -> u128
    requires latencies { AreLatencies checked.now.diagram plan.now latencies.now }
    requires ready { length ready.now ≡ length checked.now.diagram.blocks }
    ensures { result ≡ capped (greatest (map (output_latency_of checked.now.diagram
        (attributes_of checked.now.diagram) plan.now latencies.now.lat ready.now)
        (numbers_from 0 (length checked.now.diagram.blocks)))) }
{
    checked.keeps_rules();
    let blocks = checked.diagram().blocks.as_slice();
    let mut latest = 0u128;
    for place in 0..blocks.len() {
        let clocks = output_latency(checked, plan, latencies, ready, place as u32);
        latest = latest.max(clocks);
    }
    latest
}
