ghost use Rattle.std.specs.Prelude.{IfErr, IfOk};
ghost use Rattle.dg_model.specs.Faults.{IsRefusal};
ghost use Rattle.dg_model.specs.PlanOf.{IsPlanOf};
ghost use Rattle.dg_model.specs.PlanRange.{IsPlanInRange};
ghost use Rattle.hw_rules.specs.Rules.{BreaksPlanRule};
ghost use Rattle.hw_rules.specs.Times.{ArePlanned};

use crate::times::{Times, times_of};
use dg_model::{CheckFault, Checked, Plan, Resolved};
use dg_rules::resolve;
use std::alloc::Global;

/// A plan whose paths are found in a diagram, and the times of the diagram by it (own).
#[derive(Drop)]
pub struct Planned {
    /// The plan by the diagram's blocks.
    pub resolved: Resolved,
    /// The times of the blocks.
    pub times: Times,
}

impl Planned {
    /// Frees the plan with its times, so that crates above needn't prove how.
    pub fn discard(self) {
        drop(self);
    }
}

/// A plan on a checked diagram with its times, or the first of the rules of plan, latency, budget and
/// size that is broken, or want of memory.
pub fn plan_on(alloc: Global, checked: &Checked, plan: &Plan) -> Result<Planned, CheckFault>
    requires { IsPlanInRange plan.now }
    ensures planned { IfOk result (ArePlanned checked.now.diagram plan.now) }
    ensures of_diagram { IfOk result (λ planned. IsPlanOf checked.now.diagram planned.resolved) }
    ensures refused { IfErr result (IsRefusal (BreaksPlanRule checked.now.diagram plan.now)) }
{
    let resolved = resolve(alloc, checked, plan)?;
    let times = times_of(alloc, checked, &resolved)?;
    Ok(Planned { resolved, times })
}
