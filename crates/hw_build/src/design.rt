//! What a netlist is built from, and in which frames its blocks show their entries.
ghost use Rattle.std.specs.Prelude.{◌≡◌, ◌-◌, ◌^◌, ◌<◌, ◌≤◌, Some, length};
ghost use Rattle.dg_model.specs.Attributes.{attributes_of};
ghost use Rattle.hw_build.specs.inner.DesignTimes.{IsDesigned, seen_at, timing_for};
ghost use Rattle.hw_build.specs.inner.Lines.{frame_behind};

use dg_model::{Checked, Resolved};
use hw_latency::{Latencies, arc_between, latencies_are_small};
use hw_lines::Use;
use hw_net::Frame;
use hw_sched::{Slots, periods_are_above};

/// A checked diagram with a plan, its latencies and its slots.
#[derive(Clone, Copy)]
pub struct Design<'a> {
    pub checked: &'a Checked,
    pub plan: &'a Resolved,
    pub latencies: &'a Latencies,
    pub slots: &'a Slots,
}

/// The frames of a block of this period, behind its pipeline.
pub fn frame_after<'a>(design: Design<'a>, block: u32, period: u32) -> Frame
    requires designed { IsDesigned design }
    requires there { block < length design.checked.now.diagram.blocks }
    requires period { (attributes_of design.checked.now.diagram).period_at block ≡ Some period }
    ensures { result ≡ frame_behind (timing_for design.entry) period block }
{
    latencies_are_small();
    periods_are_above();
    let lat = design.latencies.lat.as_slice()[block as usize];
    let stages = design.plan.stages.as_slice()[block as usize];
    Frame {
        period,
        latency: lat + u64::from(stages) * u64::from(period),
    }
}

/// How a block of this period sees another by a line, where that has these frames behind its
/// pipeline.
pub fn line_use<'a>(design: Design<'a>, from: u32, to: u32, frame: Frame, own: u32) -> Use
    requires designed { IsDesigned design }
    requires from { from < length design.checked.now.diagram.blocks }
    requires to { to < length design.checked.now.diagram.blocks }
    requires behind { frame.latency ≤ seen_at design from to }
    requires near { seen_at design from to < 2 ^ 62 }
    ensures { result ≡ record { shift = seen_at design.entry from to - frame.latency; period = own } }
{
    let arc = arc_between(
        design.checked,
        design.plan,
        design.latencies.fed.as_slice(),
        from,
        to,
    );
    let lat = design.latencies.lat.as_slice()[to as usize];
    Use {
        shift: lat + arc.slack - frame.latency,
        period: own,
    }
}
