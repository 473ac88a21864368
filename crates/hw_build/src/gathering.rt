//! What all ends ask: first those of the lines, then those of what enables blocks.
ghost use Rattle.std.specs.Prelude.{◌≡◌, ◌++◌, ◌-◌, ◌<◌, ◌≤◌, ◌∷◌, ℕ, [], List, OnOk, length};
ghost use Rattle.hw_build.specs.declared.operands.Span.{Span};
ghost use Rattle.hw_build.specs.inner.EndAsks.{AreLawful, CanAsk, HaveAsked, IsLineThere, IsSpan, PutsControl, PutsLine, controls_left};

use crate::asks::{Asked, Asks, ask_plain, ask_signal};
use crate::design::{Design, frame_after, line_use};
use crate::hubs::shown_ports;
use crate::laws::schedules_are_timed;
use crate::line_ends::ask_late;
use crate::operands::{Span, Spans};
use dg_model::{Edge, PortWidths};
use fx_io::OutOfMemory;
use hw_latency::{block_at, control_of, is_registered, latencies_are_small, samples};
use hw_lines::Use;
use hw_sched::{edges_join_periods, lines_are_edges, periods_are_above};

/// All ends of a design, by the first nets of its ports, for which they ask.
#[derive(Clone, Copy)]
pub struct Ends<'a> {
    pub design: Design<'a>,
    pub hubs: &'a PortWidths,
}

/// What is known where ends ask.
pub fn ends_are_lawful<'a>(ends: Ends<'a>)
    requires { CanAsk ends }
    ensures { AreLawful ends.entry }
{
    ends.design.checked.keeps_rules();
    dg_model::edges_stand_by_port();
    dg_tables::operations_prepare();
    fx_round::storing_gives_one();
    fx_type::stored_is_one();
    latencies_are_small();
    lines_are_edges();
    edges_join_periods();
    periods_are_above();
    schedules_are_timed();
}

/// Asks for what the end of a line is offered.
fn line_end<'a>(asks: &mut Asks, ends: Ends<'a>, edge: Edge) -> Asked
    requires can { CanAsk ends }
    requires line { IsLineThere ends.design.checked.now.diagram edge }
    ensures { OnOk result (PutsLine ends.entry asks.old asks.new edge) }
{
    let (design, checked) = (ends.design, ends.design.checked);
    ends_are_lawful(ends);
    let one = block_at(checked, edge.to);
    if shown_ports(one) == 0 {
        return Ok(());
    }
    let first = ends.hubs.at(edge.from, edge.from_port);
    let width = checked.width(edge.from, edge.from_port);
    let Some(period) = checked.period(edge.from) else {
        return ask_signal(asks, first, width);
    };
    let own = samples(checked.period(edge.to));
    let frame = frame_after(design, edge.from, period);
    let to = line_use(design, edge.from, edge.to, frame, own);
    if is_registered(one, own, period) {
        ask_late(asks, checked, edge.to, one, first, width, frame, to)
    } else {
        ask_plain(asks, first, width, frame, to)
    }
}

/// Asks for what enables a block, if anything does.
fn control_end<'a>(asks: &mut Asks, ends: Ends<'a>, block: u32) -> Asked
    requires can { CanAsk ends }
    requires there { block < length ends.design.checked.now.diagram.blocks }
    ensures { OnOk result (PutsControl ends.entry asks.old asks.new block) }
{
    let (design, checked) = (ends.design, ends.design.checked);
    ends_are_lawful(ends);
    let Some(control) = control_of(block_at(checked, block)) else {
        return Ok(());
    };
    let hub = ends.hubs.at(control, 1);
    let Some(period) = checked.period(control) else {
        return ask_signal(asks, hub, 1);
    };
    let frame = frame_after(design, control, period);
    let lat = design.latencies.lat.as_slice()[block as usize];
    let to = Use {
        shift: lat - frame.latency,
        period: samples(checked.period(block)),
    };
    ask_plain(asks, hub, 1, frame, to)
}

/// Puts the span between two numbers behind the others.
fn put_span(spans: &mut Spans, first: usize, end: usize) -> Result<(), OutOfMemory>
    requires { first ≤ end }
    ensures { OnOk result ((span : Span)
        × (IsSpan first end span × (spans.new ≡ spans.old ++ span ∷ []))) }
{
    let Ok(start) = u32::try_from(first) else {
        // word: the number of an ask, of 32 bits
        return Err(OutOfMemory);
    };
    let Ok(count) = u32::try_from(end - first) else {
        // word: how many asks an end has, of 32 bits
        return Err(OutOfMemory);
    };
    spans.push(Span {
        first: start,
        count,
    })
}

/// Asks for what the ends of all lines are offered.
pub fn gather_lines<'a>(asks: &mut Asks, lines: &mut Spans, ends: Ends<'a>) -> Asked
    requires can { CanAsk ends }
    requires list { asks.old.list.items ≡ [] }
    requires wants { asks.old.wants.items ≡ [] }
    requires lines { lines.old ≡ [] }
    ensures { OnOk result (HaveAsked ends.entry asks.new lines.new []
        (length ends.entry.design.checked.now.diagram.edges) 0
        (controls_left ends.entry.design.checked.now.diagram 0)) }
{
    for edge in ends.design.checked.diagram().edges.as_slice() {
        let first = asks.list.len();
        line_end(asks, ends, *edge)?;
        put_span(lines, first, asks.list.len())?;
    }
    Ok(())
}

/// Asks for what enables all blocks.
pub fn gather_controls<'a>(asks: &mut Asks, controls: &mut Spans, ends: Ends<'a>) -> Asked
    requires can { CanAsk ends }
    requires controls { controls.old ≡ [] }
    ensures { OnOk result ((lines : List Span) (lined : ℕ)
        → HaveAsked ends.entry asks.old lines [] lined 0
        (controls_left ends.entry.design.checked.now.diagram 0)
        → HaveAsked ends.entry asks.new lines controls.new lined
        (length ends.entry.design.checked.now.diagram.blocks) []) }
{
    let count = ends.design.checked.diagram().blocks.as_slice().len();
    for block in 0..count {
        let first = asks.list.len();
        control_end(asks, ends, block as u32)?;
        put_span(controls, first, asks.list.len())?;
    }
    Ok(())
}
