//! The registers of a plan behind an element.
ghost use Rattle.std.specs.Prelude.{◌≡◌, ◌+◌, ◌-◌, ◌*◌, ◌<◌, ◌++◌, ◌^◌, IfOk, OnOk, Some, length};
ghost use Rattle.dg_model.specs.Attributes.{attributes_of};
ghost use Rattle.hw_build.specs.inner.DesignTimes.{IsDesigned, timing_for};
ghost use Rattle.hw_build.specs.inner.PipelineNets.{own_frame, stage_labels, stage_net, stage_nets, IsPipedBy};

use crate::design::Design;
use crate::labels::label;
use crate::parts::{put_comb, word_of};
use fx_io::OutOfMemory;
use fx_type::FxType;
use hw_net::{Frame, Net, NetKind, NetLabel, NetOp, Netlist};
use hw_sched::periods_are_above;
use std::alloc::Global;

/// What stands behind an element.
#[derive(Clone, Copy)]
pub struct Piped {
    /// What the first register takes, or the element itself where there is none. The registers have
    /// the numbers behind it.
    pub begin: u32,
    /// The last register, or the same.
    pub end: u32,
}

/// The frames of a block of this period, before its pipeline.
pub fn own_frame_of<'a>(design: Design<'a>, block: u32, period: u32) -> Frame
    requires designed { IsDesigned design }
    requires there { block < length design.checked.now.diagram.blocks }
    ensures { result ≡ own_frame (timing_for design.entry) period block }
{
    Frame {
        period,
        latency: design.latencies.lat.as_slice()[block as usize],
    }
}

/// The last clock of the frames of a block of this period.
pub fn last_slot<'a>(design: Design<'a>, block: u32, period: u32) -> u32
    requires designed { IsDesigned design }
    requires period { (attributes_of design.checked.now.diagram).period_at block ≡ Some period }
    ensures { result ≡ period * design.entry.plan.now.cycles - 1 }
{
    periods_are_above();
    period * design.plan.cycles - 1
}

/// A register that takes a net in a slot of a frame, in the word of a type. It has 0 first.
fn register(kind: FxType, frame: Frame, slot: u32, from: u32) -> Net
    ensures { result ≡ stage_net kind frame slot from }
{
    Net {
        signed: kind.is_signed(),
        width: kind.width(),
        kind: NetKind::Reg {
            frame,
            slot,
            first: 0,
            from,
        },
    }
}

/// The registers of a plan behind an element.
#[derive(Clone, Copy)]
struct Stages {
    /// The type of the element, in whose word they are.
    kind: FxType,
    /// The frames in which each takes the net before it, and the slot of a frame.
    frame: Frame,
    slot: u32,
    /// The element, by which they are named.
    block: u32,
    element: u32,
    /// How many there are.
    count: u32,
}

/// Puts in registers behind the last net, which the first takes, each with its name.
fn put_stages(
    alloc: Global,
    net: &mut Netlist,
    stages: Stages,
    begin: u32,
) -> Result<u32, OutOfMemory>
    requires { length net.old.nets ≡ begin + 1 }
    ensures end { IfOk result (λ end. end ≡ begin + stages.count) }
    ensures grown { OnOk result (net.new ≡ record net.old {
      nets = net.old.nets ++ stage_nets stages.kind stages.frame stages.slot begin stages.count;
      labels = net.old.labels ++ stage_labels begin stages.block stages.element stages.count;
    }) }
{
    let mut end = begin;
    for stage in 0..stages.count {
        let one = register(stages.kind, stages.frame, stages.slot, end);
        end = net.add(one)?;
        let number = Some(stage + 1);
        let name = label(alloc, b"fx_p", stages.block, stages.element, number)?;
        net.add_label(NetLabel { net: end, name })?;
    }
    Ok(end)
}

/// Puts in the registers of the plan behind an element. Where memory is wanting the netlist is of
/// no more use.
pub fn put_pipeline<'a>(
    alloc: Global,
    net: &mut Netlist,
    design: Design<'a>,
    block: u32,
    element: u32,
    entry: u32,
) -> Result<Piped, OutOfMemory>
    requires designed { IsDesigned design }
    requires there { block < length design.checked.now.diagram.blocks }
    requires cycles { net.old.cycles ≡ design.plan.now.cycles }
    ensures { IfOk result (λ piped. IsPipedBy design.entry.checked.now.diagram
        (timing_for design.entry) net.old net.new block element entry piped) }
{
    let alone = Piped {
        begin: entry,
        end: entry,
    };
    let stages = design.plan.stages.as_slice()[block as usize];
    if stages == 0 {
        return Ok(alone);
    }
    let Some(period) = design.checked.period(block) else {
        return Ok(alone);
    };
    periods_are_above();
    let frame = own_frame_of(design, block, period);
    let slot = last_slot(design, block, period);
    let kind = design.checked.result(block);
    let _ = net.counter(frame)?;
    let begin = put_comb(alloc, net, word_of(kind), NetOp::Resize, &[entry])?;
    let row = Stages {
        kind,
        frame,
        slot,
        block,
        element,
        count: stages,
    };
    let end = put_stages(alloc, net, row, begin)?;
    Ok(Piped { begin, end })
}
