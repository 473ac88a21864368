ghost use Rattle.std.specs.Prelude.{◌≡◌, [], IfErr, IfOk};
ghost use Rattle.dg_model.specs.Faults.{IsRefusal, fault_of};
ghost use Rattle.dg_model.specs.PlanOf.{IsPlanOf};
ghost use Rattle.dg_model.specs.declared.diagram.Diagram.{Diagram};
ghost use Rattle.dg_model.specs.declared.fault.CheckFault.TheVariants.{Broken};
ghost use Rattle.dg_model.specs.declared.resolved.Resolved.{Resolved};
ghost use Rattle.hw_latency.specs.Latency.{AreLatencies, IsLatencyFault};
ghost use Rattle.hw_latency.specs.declared.latencies.Latencies.{Latencies};
ghost use Rattle.hw_rules.specs.Rules.{BreaksTimes};
ghost use Rattle.hw_rules.specs.Times.{AreTimes};
ghost use Rattle.hw_sched.specs.Answer.{AreSlots, IsBudgetFault, timing_of};
ghost use Rattle.hw_sched.specs.Sizing.{IsSizeFault};
ghost use Rattle.hw_sched.specs.declared.slots.Slots.{Slots};

use dg_model::{CheckFault, Checked, Resolved, Rule, RuleFault, Shown};
use fx_io::Text;
use hw_latency::{Latencies, LatencyFault, latencies_of};
use hw_sched::{BudgetFault, SizeFault, Sizing, Slots, check_size, slots_of};
use std::alloc::Global;

/// The times and the size of a diagram's module by a plan (own).
#[derive(Drop)]
pub struct Times {
    /// How late the outputs of blocks are.
    pub latencies: Latencies,
    /// When and where shared operations are served.
    pub slots: Slots,
    /// How large the module is.
    pub sizing: Sizing,
}

/// The refusal of a model that breaks a rule as a whole.
fn of_model(rule: Rule, shown: Shown) -> CheckFault
    ensures { result ≡ Broken (fault_of rule [] shown) }
{
    CheckFault::Broken(RuleFault {
        rule,
        place: Text::new(),
        shown,
    })
}

/// The refusal of a plan that leaves no latencies.
fn of_latency(fault: LatencyFault) -> CheckFault
    ensures { (diagram : Diagram) (plan : Resolved) → IsLatencyFault diagram plan fault
        → IsRefusal (BreaksTimes diagram plan) result }
{
    match fault {
        LatencyFault::Cycle { blocks, total } => {
            of_model(Rule::Latency, Shown::Latency { blocks, total })
        }
        LatencyFault::OutOfMemory => CheckFault::OutOfMemory,
    }
}

/// The refusal of a plan by which a period has too few slots.
fn of_budget(fault: BudgetFault) -> CheckFault
    ensures { (diagram : Diagram) (plan : Resolved) (latencies : Latencies)
        → IsBudgetFault diagram plan latencies fault → IsRefusal (BreaksTimes diagram plan) result }
{
    match fault {
        BudgetFault::Budget { period, need, have } => {
            of_model(Rule::Budget, Shown::Budget { period, need, have })
        }
        BudgetFault::OutOfMemory => CheckFault::OutOfMemory,
    }
}

/// The refusal of a plan by which the module is too large.
fn of_size(fault: SizeFault) -> CheckFault
    ensures { (diagram : Diagram) (plan : Resolved) (latencies : Latencies) (slots : Slots)
        → AreSlots diagram plan latencies slots
        → IsSizeFault diagram plan fault (timing_of latencies slots.depths)
        → IsRefusal (BreaksTimes diagram plan) result }
{
    match fault {
        SizeFault::Size { storage, latency } => {
            of_model(Rule::Size, Shown::Size { storage, latency })
        }
        SizeFault::OutOfMemory => CheckFault::OutOfMemory,
    }
}

/// The times of a checked diagram by a plan with its latencies, or the first of the rules of budget
/// and size that is broken, or want of memory.
pub fn times_by(
    alloc: Global,
    checked: &Checked,
    latencies: Latencies,
    plan: &Resolved,
) -> Result<Times, CheckFault>
    requires plan { IsPlanOf checked.now.diagram plan.now }
    requires latencies { AreLatencies checked.now.diagram plan.now latencies }
    ensures times { IfOk result (AreTimes checked.now.diagram plan.now) }
    ensures refused { IfErr result (IsRefusal (BreaksTimes checked.now.diagram plan.now)) }
{
    let slots = match slots_of(alloc, checked, &latencies, plan) {
        Ok(slots) => slots,
        Err(fault) => {
            drop(latencies);
            return Err(of_budget(fault));
        }
    };
    match check_size(checked, plan, &latencies, slots.ready.as_slice()) {
        Ok(sizing) => Ok(Times {
            latencies,
            slots,
            sizing,
        }),
        Err(fault) => {
            drop(latencies);
            drop(slots);
            Err(of_size(fault))
        }
    }
}

/// The times of a checked diagram by a plan, or the first of the rules of latency, budget and size
/// that is broken, or want of memory.
pub fn times_of(alloc: Global, checked: &Checked, plan: &Resolved) -> Result<Times, CheckFault>
    requires plan { IsPlanOf checked.now.diagram plan.now }
    ensures times { IfOk result (AreTimes checked.now.diagram plan.now) }
    ensures refused { IfErr result (IsRefusal (BreaksTimes checked.now.diagram plan.now)) }
{
    match latencies_of(alloc, checked, plan) {
        Ok(latencies) => times_by(alloc, checked, latencies, plan),
        Err(fault) => Err(of_latency(fault)),
    }
}
