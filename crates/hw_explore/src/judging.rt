ghost use Rattle.std.specs.Prelude.{◌≡◌, ◌<◌, IfErr, IfOk};
ghost use Rattle.dg_model.specs.Faults.{IsRefusal};
ghost use Rattle.dg_model.specs.PlanOf.{IsPlanOf};
ghost use Rattle.hw_explore.specs.Candidates.{IsFinding, IsJudged};
ghost use Rattle.hw_explore.specs.Range.{IsRange, pairs_of};
ghost use Rattle.hw_explore.specs.inner.Latencies.{AreTimed, IsTimed};
ghost use Rattle.hw_rules.specs.Rules.{BreaksTimes};
ghost use Rattle.hw_rules.specs.Times.{AreTimes};

use crate::finding::{Finding, Judged};
use crate::plain::without_pipelines;
use crate::range::Range;
use crate::timed::{BySharing, Timed};
use dg_model::{CheckFault, Checked, Resolved, Rule, RuleFault, Shown};
use fx_io::{OutOfMemory, Sequence};
use hw_latency::Latencies;
use hw_rules::{Times, multiplications, times_by};
use std::alloc::Global;

/// A copy of a list.
fn copied<T: Copy>(alloc: Global, list: &Sequence<T>) -> Result<Sequence<T>, OutOfMemory>
    ensures { IfOk result (λ copy. copy ≡ list.now) }
{
    Ok(Sequence::from_vec(Vec::from_slice(alloc, list.as_slice())?))
}

/// A copy of latencies.
fn copy_of(alloc: Global, latencies: &Latencies) -> Result<Latencies, OutOfMemory>
    ensures { IfOk result (λ copy. copy ≡ latencies.now) }
{
    Ok(Latencies {
        lat: copied(alloc, &latencies.lat)?,
        tight: copied(alloc, &latencies.tight)?,
        fed: copied(alloc, &latencies.fed)?,
    })
}

/// What a plan is worth that keeps the rules.
fn judge_good(checked: &Checked, plan: &Resolved, times: Times) -> Result<Judged, OutOfMemory>
    requires plan { IsPlanOf checked.now.diagram plan.now }
    requires times { AreTimes checked.now.diagram plan.now times }
    ensures { IfOk result (IsJudged checked.now.diagram plan.now) }
{
    let latency = times.sizing.latency;
    let owed = multiplications(checked, plan, &times);
    drop(times);
    let owed = owed?;
    Ok(Judged::Good { owed, latency })
}

/// What a plan is worth, by its times or by the first rule that it breaks.
fn judge_times(
    checked: &Checked,
    plan: &Resolved,
    times: Result<Times, CheckFault>,
) -> Result<Judged, OutOfMemory>
    requires plan { IsPlanOf checked.now.diagram plan.now }
    requires times { IfOk times (AreTimes checked.now.diagram plan.now) }
    requires refused { IfErr times (IsRefusal (BreaksTimes checked.now.diagram plan.now)) }
    ensures { IfOk result (IsJudged checked.now.diagram plan.now) }
{
    match times {
        Ok(times) => judge_good(checked, plan, times),
        Err(CheckFault::Broken(RuleFault { rule, place, shown })) => {
            drop(place);
            Ok(Judged::Bad { rule, shown })
        }
        Err(CheckFault::OutOfMemory) => Err(OutOfMemory),
    }
}

impl Timed {
    /// What the plan is worth that has these latencies.
    fn judge(
        &self,
        alloc: Global,
        checked: &Checked,
        plan: &Resolved,
    ) -> Result<Judged, OutOfMemory>
        requires plan { IsPlanOf checked.now.diagram plan.now }
        requires timed { IsTimed checked.now.diagram plan.now self.now }
        ensures { IfOk result (IsJudged checked.now.diagram plan.now) }
    {
        match self {
            Timed::Kept(latencies) => {
                let copy = copy_of(alloc, latencies)?;
                judge_times(checked, plan, times_by(alloc, checked, copy, plan))
            }
            Timed::Gaining { blocks, total } => Ok(Judged::Bad {
                rule: Rule::Latency,
                shown: Shown::Latency {
                    blocks: copied(alloc, blocks)?,
                    total: *total,
                },
            }),
        }
    }
}

/// What is found of the plan of this number.
pub fn finding_at(
    alloc: Global,
    checked: &Checked,
    timed: &BySharing,
    range: Range,
    place: u32,
) -> Result<Finding, OutOfMemory>
    requires timed { AreTimed checked.now.diagram timed.now }
    requires range { IsRange range }
    requires there { place < pairs_of range }
    ensures { IfOk result (IsFinding checked.now.diagram range place) }
{
    let cycles = range.cycles(place);
    let multipliers = range.multipliers(place);
    let plan = without_pipelines(alloc, checked, cycles, multipliers)?;
    let verdict = timed.at(cycles, multipliers).judge(alloc, checked, &plan);
    drop(plan);
    Ok(Finding {
        cycles,
        multipliers,
        verdict: verdict?,
    })
}
