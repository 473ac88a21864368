//! The lines of blocks, and the whole text.
ghost use Rattle.std.specs.Prelude.{◌≡◌, ◌<◌, Some, length, slice_get};
ghost use Rattle.hw_rules.specs.Times.{AreTimes, timing_in};
ghost use Rattle.cmd_check.specs.CheckText.{block_line, blocks_text, ports_text};
ghost use Rattle.cmd_check.specs.Handed.{Adds};
ghost use Rattle.cmd_check.specs.Gathered.{IsGathered, WritesCheck};

use crate::gathering::Gathered;
use crate::outputs::put_outputs;
use crate::pending::{Pending, none_pending, put, put_last};
use crate::pieces::{put_named, put_period, put_type};
use crate::quoting::put_path;
use dg_model::{Block, Checked};
use fx_io::{PutFault, Sink};
use hw_latency::block_at;
use hw_rules::Planned;

/// Puts the types and the widths of all output ports of a block.
fn put_ports<K: Sink>(
    out: &mut K,
    pending: &mut Pending,
    checked: &Checked,
    place: u32,
    block: &Block,
)
    requires { slice_get checked.now.diagram.blocks place ≡ Some block.now }
    ensures { Adds K.taken K.faults out.old pending.old out.new pending.new
        (ports_text checked.now.diagram place block.now.outputs) }
{
    checked.keeps_rules();
    for port in 0..block.outputs {
        let width = checked.width(place, port + 1);
        put_type(out, pending, checked.result(place));
        put_named(out, pending, b" ", u64::from(width));
    }
}

/// Puts the line of a block: its path, period and latency, and its output ports.
fn put_block<K: Sink>(
    out: &mut K,
    pending: &mut Pending,
    checked: &Checked,
    planned: &Planned,
    place: u32,
)
    requires size { length planned.now.times.latencies.lat ≡ length checked.now.diagram.blocks }
    requires there { place < length checked.now.diagram.blocks }
    ensures { Adds K.taken K.faults out.old pending.old out.new pending.new
        (block_line checked.now.diagram (timing_in planned.now.times) place) }
{
    let block = block_at(checked, place);
    let latency = planned.times.latencies.lat.as_slice()[place as usize];
    put(out, pending, b"block ");
    put_path(out, pending, &block.path);
    put_period(out, pending, checked.period(place));
    put_named(out, pending, b" latency ", latency);
    put_ports(out, pending, checked, place, block);
    put(out, pending, b"\n");
}

/// Puts the lines of all blocks.
fn put_blocks<K: Sink>(out: &mut K, pending: &mut Pending, checked: &Checked, planned: &Planned)
    requires size { length planned.now.times.latencies.lat ≡ length checked.now.diagram.blocks }
    ensures { Adds K.taken K.faults out.old pending.old out.new pending.new
        (blocks_text checked.now.diagram (timing_in planned.now.times)) }
{
    checked.keeps_rules();
    for place in 0..checked.diagram().blocks.as_slice().len() {
        put_block(out, pending, checked, planned, place as u32);
    }
}

/// Puts what is worked out of a checked diagram by a plan that keeps the rules: a line for the plan,
/// a line for each block, and a line for each element of the root outputs with a path that makes it
/// so late. It takes no memory, so that what was put is the whole text, or a part of it after a fault.
///
/// # Errors
/// A fault of the sink.
pub fn put_check<K: Sink>(
    out: &mut K,
    checked: &Checked,
    planned: &Planned,
    mut gathered: Gathered,
) -> Result<(), PutFault>
    requires times { AreTimes checked.now.diagram planned.now.resolved planned.now.times }
    requires gathered { IsGathered checked.now.diagram planned.now.resolved
        (timing_in planned.now.times) gathered }
    ensures { WritesCheck checked.now.diagram planned.now.resolved
        (timing_in planned.now.times) K.taken K.faults out.old out.new result }
{
    checked.keeps_rules();
    dg_model::root_elements_are_listed();
    let mut pending = none_pending();
    let cycles = u64::from(planned.resolved.cycles);
    let multipliers = u64::from(planned.resolved.multipliers);
    put_named(out, &mut pending, b"accepted cycles ", cycles);
    put_named(out, &mut pending, b" multipliers ", multipliers);
    put(out, &mut pending, b"\n");
    put_blocks(out, &mut pending, checked, planned);
    let first = gathered.names.as_slice().len() - gathered.outputs.as_slice().len();
    put_outputs(
        out,
        &mut pending,
        checked,
        planned,
        &gathered.names.as_slice()[first..],
        gathered.outputs.as_slice(),
        gathered.clocks.as_slice(),
        &mut gathered.room,
    );
    gathered.discard();
    put_last(out, &mut pending)
}
