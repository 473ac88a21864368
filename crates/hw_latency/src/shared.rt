ghost use Rattle.std.specs.Prelude.{◌≡◌, ◌<◌, ◌≤◌, length};
ghost use Rattle.dg_model.specs.Attributes.{attributes_of};
ghost use Rattle.dg_model.specs.Library.{row_of};
ghost use Rattle.hw_latency.specs.Shared.{is_shared as is_shared_of, shares as shares_of};
ghost use Rattle.dg_model.specs.PlanOf.{IsPlanOf};

use crate::block::block_at;
use dg_model::{Checked, Kind, Resolved};

/// Whether each element of a block of this kind is a multiplication (own).
pub fn multiplies(kind: &Kind) -> bool
    ensures { result ≡ (row_of kind.now).hardware.multiplies }
{
    kind.row().multiplies
}

/// Whether multiplications of this period are shared.
fn shares(plan: &Resolved, period: Option<u32>) -> bool
    requires { plan.now.cycles ≤ 1024 }
    ensures { result ≡ shares_of plan.now period }
{
    match period {
        None => false,
        Some(period) => plan.multipliers > 0 && u64::from(period) * u64::from(plan.cycles) > 1,
    }
}

/// Whether the elements of a block are shared operations.
pub fn is_shared(checked: &Checked, plan: &Resolved, place: u32) -> bool
    requires plan { IsPlanOf checked.now.diagram plan.now }
    requires there { place < length checked.now.diagram.blocks }
    ensures { result
        ≡ is_shared_of checked.now.diagram (attributes_of checked.now.diagram) plan.now place }
{
    let block = block_at(checked, place);
    if !multiplies(&block.kind) {
        return false;
    }
    shares(plan, checked.period(place))
}
