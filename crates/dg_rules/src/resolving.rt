ghost use Rattle.std.specs.Prelude.{◌≡◌, ◌↔◌, ◌<◌, ℕ, ◌≢◌, List, IfOk, IfErr, IfSome, OnOk, Some, None, bytes_eq, length, position, true, slice_get, slice_index_or};
ghost use Rattle.dg_model.specs.declared.diagram.Block.{Block};
ghost use Rattle.dg_model.specs.declared.plan.Pipeline.{Pipeline as Line};
ghost use Rattle.dg_model.specs.Attributes.{attributes_of};
ghost use Rattle.dg_model.specs.Faults.{IsRefusal, fault_of};
ghost use Rattle.dg_model.specs.declared.fault.Shown.TheVariants.{Nothing};
ghost use Rattle.dg_model.specs.declared.rule.Rule.{Rule};
ghost use Rattle.dg_model.specs.Library.{row_of};
ghost use Rattle.dg_model.specs.PlanNames.{MayBePipelined, KeepsPlan, BreaksPlan, IsResolved};
ghost use Rattle.dg_model.specs.PlanOf.{IsPlanOf};
ghost use Rattle.dg_model.specs.PlanRange.{IsPlanInRange, AreDifferent};
ghost use Rattle.dg_rules.specs.inner.Ends.{HaveEnds};
ghost use Rattle.dg_rules.specs.inner.Lines.{AreLines};
ghost use Rattle.dg_rules.specs.inner.Standings.{looked_at, count_in, AllFound, IsWalked};
ghost use Rattle.dg_rules.specs.declared.standing.Standing.TheVariants.{Unseen, Found};

use crate::ends::Ends;
use crate::lines::Lines;
use crate::standing::{Standing, next, unseen};
use dg_model::{CheckFault, Checked, Kind, Path, Pipeline, Plan, Resolved, Rule, RuleFault, Shown};
use fx_io::{OutOfMemory, Sizes, Text};
use std::alloc::Global;

/// Whether registers may stand behind a block of this kind.
fn may_stand_behind(kind: &Kind) -> bool
    ensures { result ≡ (row_of kind.now).hardware.pipelines }
{
    kind.row().pipelines
}

/// Whether registers may stand behind the block at a place.
fn may_be_pipelined(checked: &Checked, place: usize) -> bool
    requires { place < length checked.now.diagram.blocks }
    ensures { (block : Block) → slice_get checked.now.diagram.blocks place ≡ Some block
        → (result ≡ true) ↔ MayBePipelined (attributes_of checked.now.diagram) place block }
{
    checked.keeps_rules();
    let block = &checked.diagram().blocks.as_slice()[place];
    may_stand_behind(&block.kind) & checked.period(place as u32).is_some()
}

/// Looks at one more block: how the line of its path stands then, and how many registers that sets.
fn look_at(
    pipelines: &[Pipeline],
    number: Option<usize>,
    may: bool,
    standings: &mut Vec<Standing>,
) -> u32
    requires within { (k : ℕ) → number ≡ Some k → k < length pipelines.now }
    requires long { length standings.old.items ≡ length pipelines.now }
    ensures standings { standings.new.items ≡ looked_at number may standings.old.items }
    ensures count { result ≡ count_in number pipelines.now }
{
    let Some(number) = number else {
        return 0;
    };
    standings[number] = next(may, standings[number]);
    pipelines[number].count
}

/// The number of the line of a path. It is spelled only where a line ends as it does.
fn line_of(
    lines: &Lines,
    ends: &Ends,
    path: &Path,
    spelled: &mut Vec<u8>,
) -> Result<Option<usize>, OutOfMemory>
    ensures { IfOk result (λ number. (pipelines : List Line) → AreLines pipelines lines.now
        → HaveEnds pipelines ends.now.by_bytes.entries
        → number ≡ position (λ line. bytes_eq path.now line.path) pipelines) }
{
    let (_, name) = path.split();
    if !ends.may_end(name) {
        return Ok(None);
    }
    spelled.clear();
    path.put(spelled)?;
    Ok(lines.number(spelled))
}

/// What one walk over the blocks gives: how each line stands, and the registers behind each block.
#[derive(Drop)]
struct Walk {
    standings: Vec<Standing>,
    stages: Sizes,
}

/// Looks at all blocks in order.
fn look_at_all(
    alloc: Global,
    checked: &Checked,
    plan: &Plan,
    lines: &Lines,
    ends: &Ends,
) -> Result<Walk, OutOfMemory>
    requires different { AreDifferent plan.now.pipelines }
    requires lines { AreLines plan.now.pipelines lines.now }
    requires ends { HaveEnds plan.now.pipelines ends.now.by_bytes.entries }
    ensures { IfOk result (λ walk. IsWalked checked.now.diagram plan.now walk) }
{
    let pipelines = plan.pipelines.as_slice();
    let blocks = checked.diagram().blocks.as_slice();
    let mut standings = unseen(alloc, pipelines.len())?;
    let mut stages = Sizes::new(alloc);
    let mut spelled = Vec::new(alloc);
    for place in 0..blocks.len() {
        let number = line_of(lines, ends, &blocks[place].path, &mut spelled)?;
        let may = may_be_pipelined(checked, place);
        let count = look_at(pipelines, number, may, &mut standings);
        stages.push(count)?;
    }
    Ok(Walk { standings, stages })
}

/// Looks at all blocks in order for the lines of a plan.
fn walk_of(alloc: Global, checked: &Checked, plan: &Plan) -> Result<Walk, OutOfMemory>
    requires { AreDifferent plan.now.pipelines }
    ensures { IfOk result (λ walk. IsWalked checked.now.diagram plan.now walk) }
{
    let pipelines = plan.pipelines.as_slice();
    let lines = Lines::of(alloc, pipelines)?;
    let ends = Ends::of(alloc, pipelines)?;
    look_at_all(alloc, checked, plan, &lines, &ends)
}

/// The first line that isn't found, if there is one.
fn first_missing(standings: &[Standing]) -> Option<usize>
    ensures there { IfSome result (λ number. number < length standings.now) }
    ensures missing { IfSome result (λ number. slice_index_or standings.now number Unseen ≢ Found) }
    ensures before { IfSome result (λ number. AllFound standings.now number) }
    ensures none { result ≡ None → AllFound standings.now (length standings.now) }
{
    for number in 0..standings.len() {
        if standings[number] != Standing::Found {
            return Some(number);
        }
    }
    None
}

/// The refusal at a line that isn't found.
fn refusal(alloc: Global, pipeline: &Pipeline) -> CheckFault
    ensures { IsRefusal (λ fault. fault ≡ fault_of Rule.Plan pipeline.now.path Nothing) result }
{
    match Text::copy(alloc, pipeline.path.bytes()) {
        Ok(place) => CheckFault::Broken(RuleFault {
            rule: Rule::Plan,
            place,
            shown: Shown::Nothing,
        }),
        Err(OutOfMemory) => CheckFault::OutOfMemory,
    }
}

/// Finds the blocks that a plan names, and gives each block the registers that the plan sets behind it
/// (HDL Coder's output pipelines). The plan's numbers stay.
///
/// # Errors
/// Broken exactly where a path of the plan is that of no block, or that of one behind which no register
/// may stand: the rule of plans, at the first such path. Or want of memory.
pub fn resolve(alloc: Global, checked: &Checked, plan: &Plan) -> Result<Resolved, CheckFault>
    requires { IsPlanInRange plan.now }
    ensures kept { OnOk result (KeepsPlan checked.now.diagram
        (attributes_of checked.now.diagram) plan.now) }
    ensures resolved { IfOk result (λ resolved. IsResolved checked.now.diagram plan.now resolved) }
    ensures planned { IfOk result (λ resolved. IsPlanOf checked.now.diagram resolved) }
    ensures refused { IfErr result (IsRefusal
        (BreaksPlan checked.now.diagram (attributes_of checked.now.diagram) plan.now)) }
{
    let pipelines = plan.pipelines.as_slice();
    let walk = walk_of(alloc, checked, plan)?;
    if let Some(number) = first_missing(walk.standings.as_slice()) {
        return Err(refusal(alloc, &pipelines[number]));
    }
    Ok(Resolved {
        cycles: plan.cycles,
        multipliers: plan.multipliers,
        stages: walk.stages,
    })
}
