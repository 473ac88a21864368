ghost use Rattle.std.specs.Prelude.{◌≡◌, ◌<◌, IfErr, IfOk};
ghost use Rattle.hw_latency.specs.Latency.{AreLatencies};
ghost use Rattle.dg_model.specs.PlanOf.{IsPlanOf};
ghost use Rattle.hw_sched.specs.Answer.{AreSlots, IsBudgetFault, timing_of};
ghost use Rattle.hw_sched.specs.Scheduled.{IsTimingOf};
ghost use Rattle.hw_sched.specs.inner.Service.{IsServed};

use crate::cells::cells_of;
use crate::deepening::depths;
use crate::readying::ready_of;
use crate::spans::spans_of;
use dg_model::{Checked, Resolved};
use fx_io::Longs;
use hw_latency::Latencies;
use hw_slots::SlotFault;
use std::alloc::Global;

/// When and where shared operations are served, in order of their blocks and elements, and when
/// outputs are ready (own; HDL Coder, resource sharing).
#[derive(Drop)]
pub struct Slots {
    /// The slot of each shared operation in its period, in clocks.
    pub starts: Longs,
    /// The multiplier of each shared operation.
    pub units: Longs,
    /// The clock of its period at which each block's output is ready.
    pub ready: Longs,
    /// By block, how many shared blocks of its period stand one behind another at the most on
    /// instant paths that end with it.
    pub depths: Longs,
}

/// At most how many multipliers serve a kind; without any there is no shared operation, and any
/// number will do.
fn multipliers_of(plan: &Resolved) -> u64
    ensures some { 0 < result }
    ensures is { 0 < plan.now.multipliers → result ≡ plan.now.multipliers }
{
    if plan.multipliers == 0 {
        1
    } else {
        u64::from(plan.multipliers)
    }
}

/// The slots of the shared operations of a diagram by depths.
fn slots_by_depths(
    alloc: Global,
    checked: &Checked,
    latencies: &Latencies,
    depths: &[u64],
    plan: &Resolved,
) -> Result<hw_slots::Slots, SlotFault>
    requires plan { IsPlanOf checked.now.diagram plan.now }
    requires timed { IsTimingOf checked.now.diagram plan.now (timing_of latencies.now depths.now) }
    ensures slots { IfOk result
        (IsServed checked.now.diagram plan.now (timing_of latencies.now depths.now)) }
    ensures short { IfErr result (IsBudgetFault checked.now.diagram plan.now latencies.now) }
{
    let cells = cells_of(alloc, checked, plan, latencies, depths)?;
    let spans = spans_of(alloc, checked, plan)?;
    let multipliers = multipliers_of(plan);
    let kinds = cells.numbers.count();
    let made = hw_slots::slots_of(
        alloc,
        cells.operations.as_slice(),
        spans.as_slice(),
        multipliers,
        kinds,
    );
    drop(spans);
    drop(cells);
    made
}

/// The slots and multipliers of the shared operations of a checked diagram by a plan, and when its
/// outputs are ready, or the least period that has too few slots. Its time is that of the blocks,
/// edges, operations and of the longest period, each with a few look-ups in trees.
pub fn slots_of(
    alloc: Global,
    checked: &Checked,
    latencies: &Latencies,
    plan: &Resolved,
) -> Result<Slots, SlotFault>
    requires plan { IsPlanOf checked.now.diagram plan.now }
    requires latencies { AreLatencies checked.now.diagram plan.now latencies.now }
    ensures slots { IfOk result (AreSlots checked.now.diagram plan.now latencies.now) }
    ensures short { IfErr result (IsBudgetFault checked.now.diagram plan.now latencies.now) }
{
    let depths = depths(alloc, checked, plan)?;
    let by_block = depths.as_slice();
    let made = slots_by_depths(alloc, checked, latencies, by_block, plan)?;
    let ready = ready_of(alloc, checked, latencies, by_block, &made.bases);
    let hw_slots::Slots {
        starts,
        units,
        bases,
    } = made;
    drop(bases);
    let ready = ready?;
    Ok(Slots {
        starts,
        units,
        ready,
        depths,
    })
}
