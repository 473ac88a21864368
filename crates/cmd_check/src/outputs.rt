//! The lines of root outputs.
ghost use Rattle.std.specs.Prelude.{◌≡◌, ◌<◌, All, length, map};
ghost use Rattle.hw_rules.specs.Times.{AreTimes, timing_in};
ghost use Rattle.cmd_check.specs.CheckText.{steps_text};
ghost use Rattle.cmd_check.specs.Handed.{Adds};
ghost use Rattle.cmd_check.specs.Gathered.{clocks_at};
ghost use Rattle.cmd_check.specs.inner.OutputLines.{PutsOutput, PutsOutputs};

use crate::paths::path_to;
use crate::pending::{Pending, put};
use crate::pieces::put_named;
use crate::quoting::put_path;
use dg_model::Checked;
use fx_io::{Sink, Text};
use hw_latency::block_at;
use hw_rules::Planned;

/// Puts the paths of all blocks on a path, each behind a space.
fn put_steps<K: Sink>(out: &mut K, pending: &mut Pending, checked: &Checked, path: &[u32])
    requires { All (λ block. block < length checked.now.diagram.blocks) path.now }
    ensures { Adds K.taken K.faults out.old pending.old out.new pending.new
        (steps_text checked.now.diagram path.now) }
{
    for block in path {
        put(out, pending, b" ");
        put_path(out, pending, &block_at(checked, *block).path);
    }
}

/// Puts the line of an output, whose path is worked out in this room.
fn put_output<K: Sink>(
    out: &mut K,
    pending: &mut Pending,
    checked: &Checked,
    planned: &Planned,
    name: &[u8],
    block: u32,
    clocks: u64,
    room: &mut [u32],
)
    requires times { AreTimes checked.now.diagram planned.now.resolved planned.now.times }
    requires there { block < length checked.now.diagram.blocks }
    requires clocks { clocks ≡ clocks_at checked.now.diagram planned.now.resolved
        (timing_in planned.now.times) block }
    requires room { length room.old ≡ length checked.now.diagram.blocks }
    ensures puts { PutsOutput checked.now.diagram planned.now.resolved
        (timing_in planned.now.times) name.now block
        K.taken K.faults out.old pending.old out.new pending.new }
    ensures room { length room.new ≡ length room.old }
{
    let start = path_to(
        checked,
        &planned.resolved,
        &planned.times.latencies,
        block,
        room,
    );
    put(out, pending, b"output ");
    put(out, pending, name);
    put_named(out, pending, b" clocks ", clocks);
    put(out, pending, b" path");
    put_steps(out, pending, checked, &room[start..]);
    put(out, pending, b"\n");
}

/// Puts the lines of outputs, which have these names, blocks and clocks.
pub fn put_outputs<K: Sink>(
    out: &mut K,
    pending: &mut Pending,
    checked: &Checked,
    planned: &Planned,
    names: &[Text],
    blocks: &[u32],
    clocks: &[u64],
    room: &mut [u32],
)
    requires times { AreTimes checked.now.diagram planned.now.resolved planned.now.times }
    requires there { All (λ block. block < length checked.now.diagram.blocks) blocks.now }
    requires size { length names.now ≡ length blocks.now }
    requires clocks { clocks.now ≡ map (clocks_at checked.now.diagram planned.now.resolved
        (timing_in planned.now.times)) blocks.now }
    requires room { length room.old ≡ length checked.now.diagram.blocks }
    ensures { PutsOutputs checked.now.diagram planned.now.resolved
        (timing_in planned.now.times) names.now blocks.now (length blocks.now)
        K.taken K.faults out.old pending.old out.new pending.new }
{
    for place in 0..blocks.len() {
        put_output(
            out,
            pending,
            checked,
            planned,
            names[place].bytes(),
            blocks[place],
            clocks[place],
            room,
        );
    }
}
