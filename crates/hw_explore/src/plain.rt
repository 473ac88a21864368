ghost use Rattle.std.specs.Prelude.{◌≡◌, ◌≤◌, IfOk};
ghost use Rattle.dg_model.specs.Limits.{most_cycles, most_multipliers};
ghost use Rattle.dg_model.specs.PlanOf.{IsPlanOf};
ghost use Rattle.hw_explore.specs.Candidates.{plain_plan};

use dg_model::{Checked, Resolved};
use fx_io::{OutOfMemory, Sizes};
use std::alloc::Global;

/// The plan of these clocks and multipliers that sets no registers.
pub fn without_pipelines(
    alloc: Global,
    checked: &Checked,
    cycles: u32,
    multipliers: u32,
) -> Result<Resolved, OutOfMemory>
    requires some { 1 ≤ cycles }
    requires clocks { cycles ≤ most_cycles }
    requires multipliers { multipliers ≤ most_multipliers }
    ensures is { IfOk result (λ plan. plan ≡ plain_plan checked.now.diagram cycles multipliers) }
    ensures plan { IfOk result (λ plan. IsPlanOf checked.now.diagram plan) }
{
    let count = checked.diagram().blocks.as_slice().len();
    let stages = Sizes::from_vec(vec![in alloc; 0u32; count]?);
    Ok(Resolved {
        cycles,
        multipliers,
        stages,
    })
}
