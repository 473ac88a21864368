ghost use Rattle.std.specs.Prelude.{◌≡◌, ◌<◌, IfOk, length};
ghost use Rattle.dg_model.specs.Attributes.{attributes_of};
ghost use Rattle.dg_model.specs.PlanOf.{IsPlanOf};
ghost use Rattle.hw_rules.specs.Times.{AreTimes, timing_in};
ghost use Rattle.hw_rules.specs.inner.Own.{IsCount, own_at};
ghost use Rattle.hw_sched.specs.Ready.{owed, unshared};

use crate::times::Times;
use dg_model::{Checked, Resolved};
use fx_io::OutOfMemory;
use hw_latency::{block_at, is_shared, multiplies};
use hw_sched::{own_width, slots_differ, units_are_used};
use hw_slots::total;

/// How many multiplications a block has that share no multiplier.
fn own_multiplications(checked: &Checked, plan: &Resolved, place: u32) -> u64
    requires plan { IsPlanOf checked.now.diagram plan.now }
    requires there { place < length checked.now.diagram.blocks }
    ensures { result ≡ own_at checked.now.diagram plan.now place }
{
    if multiplies(&block_at(checked, place).kind) && !is_shared(checked, plan, place) {
        u64::from(own_width(checked, place))
    } else {
        0
    }
}

/// The multiplications of all blocks that share no multiplier.
fn own_in_all(checked: &Checked, plan: &Resolved) -> Result<u64, OutOfMemory>
    requires plan { IsPlanOf checked.now.diagram plan.now }
    ensures { IfOk result (λ count.
        count ≡ unshared checked.now.diagram (attributes_of checked.now.diagram) plan.now) }
{
    checked.keeps_rules();
    let mut count = 0u64;
    for place in 0..checked.diagram().blocks.as_slice().len() {
        let own = own_multiplications(checked, plan, place as u32);
        count = total(count, own)?;
    }
    Ok(count)
}

/// How many multipliers serve operations: one more than the greatest of their numbers.
fn multipliers(units: &[u64]) -> Result<u64, OutOfMemory>
    ensures { IfOk result (IsCount units.now (length units.now)) }
{
    let mut count = 0u64;
    for unit in units {
        count = count.max(total(*unit, 1)?);
    }
    Ok(count)
}

/// How many multiplications the module of a checked diagram by a plan has. A number of 2^64 or more
/// is want of memory.
pub fn multiplications(
    checked: &Checked,
    plan: &Resolved,
    times: &Times,
) -> Result<u64, OutOfMemory>
    requires plan { IsPlanOf checked.now.diagram plan.now }
    requires times { AreTimes checked.now.diagram plan.now times.now }
    ensures { IfOk result (λ count. count ≡ owed checked.now.diagram
        (attributes_of checked.now.diagram) plan.now (timing_in times.now)) }
{
    slots_differ();
    units_are_used();
    let shared = multipliers(times.slots.units.as_slice())?;
    let own = own_in_all(checked, plan)?;
    total(shared, own)
}
