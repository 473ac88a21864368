//! The registers of the lines of edges.
ghost use Rattle.std.specs.Prelude.{◌≡◌, ◌<◌, ◌^◌, [], Some, length, slice_get};
ghost use Rattle.dg_model.specs.Attributes.{attributes_of};
ghost use Rattle.hw_sched.specs.Answer.{timing_of};
ghost use Rattle.hw_sched.specs.Storage.{lines_in_all as lines_in_all_of, shift_of, width_of_edge};
ghost use Rattle.hw_sched.specs.inner.Counts.{capped, CanCount, HasLatencies, IsThere, controls_line as controls_line_of, edge_of, line_at};

use crate::drivers::own_width;
use crate::laws::periods_are_above;
use dg_model::{Checked, Resolved};
use hw_latency::{Latencies, arc_between, block_at, control_of, is_registered, samples};

/// An edge for latency: from an output port of a block, from 1, to another block.
#[derive(Clone, Copy)]
pub struct Line {
    pub from: u32,
    pub from_port: u32,
    pub to: u32,
}

/// The width of a line from a block of this period.
fn line_width(checked: &Checked, line: Line, period: u32) -> u32
    requires there { IsThere checked.now.diagram line }
    requires period { (attributes_of checked.now.diagram).period_at line.from ≡ Some period }
    ensures { result ≡ width_of_edge (attributes_of checked.now.diagram) (edge_of line)
        (slice_get checked.now.diagram.blocks line.to) }
{
    let own = samples(checked.period(line.to));
    if is_registered(block_at(checked, line.to), own, period) {
        own_width(checked, line.to)
    } else {
        checked.width(line.from, line.from_port)
    }
}

/// By how many base samples the end of a line from a block of this period is later than the registers
/// of its source.
fn line_shift(
    checked: &Checked,
    plan: &Resolved,
    latencies: &Latencies,
    line: Line,
    period: u32,
) -> u128
    requires line { CanCount checked.now.diagram plan.now latencies.now line }
    requires period { (attributes_of checked.now.diagram).period_at line.from ≡ Some period }
    ensures is { result ≡ shift_of checked.now.diagram (attributes_of checked.now.diagram)
        plan.now (timing_of latencies.now []) (edge_of line) }
    ensures small { result < 2 ^ 127 }
{
    let arc = arc_between(checked, plan, latencies.fed.as_slice(), line.from, line.to);
    let lat = latencies.lat.as_slice();
    let end = u128::from(lat[line.to as usize]) + u128::from(arc.slack);
    let stages = plan.stages.as_slice()[line.from as usize];
    let behind = u64::from(stages) * u64::from(period);
    let start = u128::from(lat[line.from as usize]) + u128::from(behind);
    end.saturating_sub(start)
}

/// The registers of a line: of each element one, and one more for each period of the source by which
/// it is later, saturating.
fn line_registers(checked: &Checked, plan: &Resolved, latencies: &Latencies, line: Line) -> u128
    requires { CanCount checked.now.diagram plan.now latencies.now line }
    ensures { result ≡ capped (line_at checked.now.diagram (attributes_of checked.now.diagram)
        plan.now (timing_of latencies.now []) (edge_of line)) }
{
    checked.keeps_rules();
    periods_are_above();
    let Some(period) = checked.period(line.from) else {
        return 0;
    };
    let width = line_width(checked, line, period);
    let shift = line_shift(checked, plan, latencies, line, period);
    let depth = shift / u128::from(period) + 1;
    u128::from(width).saturating_mul(depth)
}

/// The registers of the line from the control of a block, where the block asks it at some time,
/// saturating.
fn controls_line(checked: &Checked, plan: &Resolved, latencies: &Latencies, place: u32) -> u128
    requires timed { HasLatencies checked.now.diagram plan.now latencies.now }
    requires there { place < length checked.now.diagram.blocks }
    ensures { result ≡ capped (controls_line_of checked.now.diagram
        (attributes_of checked.now.diagram) plan.now
        (timing_of latencies.now []) place (slice_get checked.now.diagram.blocks place)) }
{
    checked.keeps_rules();
    let Some(control) = control_of(block_at(checked, place)) else {
        return 0;
    };
    let line = Line {
        from: control,
        from_port: 1,
        to: place,
    };
    line_registers(checked, plan, latencies, line)
}

/// The registers of all lines, saturating.
pub fn lines_in_all(checked: &Checked, plan: &Resolved, latencies: &Latencies) -> u128
    requires { HasLatencies checked.now.diagram plan.now latencies.now }
    ensures { result ≡ capped (lines_in_all_of checked.now.diagram
        (attributes_of checked.now.diagram) plan.now (timing_of latencies.now [])) }
{
    checked.keeps_rules();
    let diagram = checked.diagram();
    let edges = diagram.edges.as_slice();
    let blocks = diagram.blocks.as_slice();
    let mut lines = 0u128;
    for edge in edges {
        let edge = *edge;
        let line = Line {
            from: edge.from,
            from_port: edge.from_port,
            to: edge.to,
        };
        lines = lines.saturating_add(line_registers(checked, plan, latencies, line));
    }
    let mut all = lines;
    for place in 0..blocks.len() {
        all = all.saturating_add(controls_line(checked, plan, latencies, place as u32));
    }
    all
}
