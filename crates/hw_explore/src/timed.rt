//! Latencies, which hang on clocks and multipliers only by which multiplications are shared.
ghost use Rattle.std.specs.Prelude.{◌≤◌, IfOk};
ghost use Rattle.dg_model.specs.Limits.{most_cycles};
ghost use Rattle.dg_model.specs.PlanOf.{IsPlanOf};
ghost use Rattle.dg_model.specs.declared.diagram.Diagram.{Diagram};
ghost use Rattle.hw_explore.specs.Candidates.{plain_plan};
ghost use Rattle.hw_explore.specs.inner.Latencies.{AreTimed, IsTimed};

use crate::plain::without_pipelines;
use dg_model::{Checked, Resolved};
use fx_io::{OutOfMemory, Sizes};
use hw_latency::{Latencies, LatencyFault, latencies_of};
use std::alloc::Global;

/// The latencies of blocks by a plan, or a cycle of blocks that leaves none.
#[derive(Drop)]
pub enum Timed {
    /// The least latencies.
    Kept(Latencies),
    /// The latencies gain `total` base samples each time round these blocks.
    Gaining { blocks: Sizes, total: i64 },
}

/// The latencies by plans without pipelines, one for each of the ways to share multiplications.
#[derive(Drop)]
pub struct BySharing {
    /// No multiplication is shared.
    none: Timed,
    /// Those of periods above one base sample are.
    slower: Timed,
    /// All of blocks with a period are.
    all: Timed,
}

/// The latencies by a plan.
fn timed_of(alloc: Global, checked: &Checked, plan: &Resolved) -> Result<Timed, OutOfMemory>
    requires { IsPlanOf checked.now.diagram plan.now }
    ensures { IfOk result (IsTimed checked.now.diagram plan.now) }
{
    match latencies_of(alloc, checked, plan) {
        Ok(latencies) => Ok(Timed::Kept(latencies)),
        Err(LatencyFault::Cycle { blocks, total }) => Ok(Timed::Gaining { blocks, total }),
        Err(LatencyFault::OutOfMemory) => Err(OutOfMemory),
    }
}

/// The latencies by the plan of these clocks and multipliers.
fn timed_by(
    alloc: Global,
    checked: &Checked,
    cycles: u32,
    multipliers: u32,
) -> Result<Timed, OutOfMemory>
    requires some { 1 ≤ cycles }
    requires clocks { cycles ≤ most_cycles }
    requires multipliers { multipliers ≤ 64 }
    ensures { IfOk result
        (IsTimed checked.now.diagram (plain_plan checked.now.diagram cycles multipliers)) }
{
    let plan = without_pipelines(alloc, checked, cycles, multipliers)?;
    let timed = timed_of(alloc, checked, &plan);
    drop(plan);
    timed
}

impl BySharing {
    /// The latencies of a diagram's blocks, worked out once for all plans.
    pub fn of(alloc: Global, checked: &Checked) -> Result<BySharing, OutOfMemory>
        ensures { IfOk result (AreTimed checked.now.diagram) }
    {
        let none = timed_by(alloc, checked, 1, 0)?;
        let slower = match timed_by(alloc, checked, 1, 1) {
            Ok(slower) => slower,
            Err(wanting) => {
                drop(none);
                return Err(wanting);
            }
        };
        match timed_by(alloc, checked, 2, 1) {
            Ok(all) => Ok(BySharing { none, slower, all }),
            Err(wanting) => {
                drop(none);
                drop(slower);
                Err(wanting)
            }
        }
    }

    /// Those by the plan of these clocks and multipliers.
    pub fn at(&self, cycles: u32, multipliers: u32) -> &Timed
        requires { 1 ≤ cycles }
        ensures { (diagram : Diagram) → AreTimed diagram self.now
            → IsTimed diagram (plain_plan diagram cycles multipliers) result.now }
    {
        if multipliers == 0 {
            return &self.none;
        }
        if cycles == 1 {
            return &self.slower;
        }
        &self.all
    }
}
