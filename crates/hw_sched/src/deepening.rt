ghost use Rattle.std.specs.Prelude.{ℕ, ◌≡◌, ◌<◌, ◌^◌, IfOk, length};
ghost use Rattle.dg_model.specs.Attributes.{attributes_of};
ghost use Rattle.dg_model.specs.PlanOf.{IsPlanOf};
ghost use Rattle.hw_sched.specs.Level.{AreDepths, depth_at};
ghost use Rattle.hw_sched.specs.inner.Greatest.{IsGreatest, IsReadLine, IsReadControl, IsNextDepth};

use crate::lines::{best_of_lines, is_same_period};
use dg_model::{Checked, Resolved};
use dg_sort::{control_now, reads_now};
use fx_io::{Longs, OutOfMemory};
use hw_latency::{block_at, is_shared};
use std::alloc::Global;

/// The greatest depth of the blocks of a block's period whose lines it reads in its own sample.
fn lines_best(checked: &Checked, depths: &[u64], place: u32) -> u64
    requires there { place < length checked.now.diagram.blocks }
    requires size { length depths.now ≡ length checked.now.diagram.blocks }
    ensures { IsGreatest (IsReadLine checked.now.diagram place) depths.now result }
{
    if reads_now(&block_at(checked, place).kind, false) {
        best_of_lines(checked, depths, place)
    } else {
        0
    }
}

/// The depth of the control that a block asks in its own sample, if that is of its period.
fn control_best(checked: &Checked, depths: &[u64], place: u32) -> u64
    requires there { place < length checked.now.diagram.blocks }
    requires size { length depths.now ≡ length checked.now.diagram.blocks }
    ensures { IsGreatest (IsReadControl checked.now.diagram place) depths.now result }
{
    checked.keeps_rules();
    match control_now(block_at(checked, place)) {
        None => 0,
        Some(control) => {
            if is_same_period(checked.period(control), checked.period(place)) {
                depths[control as usize]
            } else {
                0
            }
        }
    }
}

/// The depth of a block by those of the blocks before it in an order.
fn depth_of(checked: &Checked, plan: &Resolved, depths: &[u64], place: u32) -> u64
    requires plan { IsPlanOf checked.now.diagram plan.now }
    requires there { place < length checked.now.diagram.blocks }
    requires size { length depths.now ≡ length checked.now.diagram.blocks }
    requires small { (other : ℕ) → depth_at depths.now other < 2 ^ 63 }
    ensures { IsNextDepth checked.now.diagram plan.now depths.now place result }
{
    let lines = lines_best(checked, depths, place);
    let control = control_best(checked, depths, place);
    let best = lines.max(control);
    if is_shared(checked, plan, place) {
        best + 1
    } else {
        best
    }
}

/// By block, how many shared blocks of its period stand one behind another at the most on instant
/// paths that end with it, itself included. Its time is linear in the blocks and edges, but for the
/// search of a block's lines in their order (own).
pub fn depths(alloc: Global, checked: &Checked, plan: &Resolved) -> Result<Longs, OutOfMemory>
    requires plan { IsPlanOf checked.now.diagram plan.now }
    ensures { IfOk result (λ depths.
        AreDepths checked.now.diagram (attributes_of checked.now.diagram) plan.now depths) }
{
    checked.keeps_rules();
    let mut depths = vec![in alloc; 0u64; checked.diagram().blocks.as_slice().len()]?;
    for place in checked.order() {
        let place = *place;
        let depth = depth_of(checked, plan, depths.as_slice(), place);
        depths[place as usize] = depth;
    }
    Ok(Longs::from_vec(depths))
}
