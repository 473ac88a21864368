//! The registers of blocks beside lines, and the results that they keep.
ghost use Rattle.std.specs.Prelude.{◌≡◌, ◌<◌, ◌≤◌, ◌+◌, ◌^◌, length, slice_get};
ghost use Rattle.dg_model.specs.Attributes.{attributes_of};
ghost use Rattle.dg_model.specs.PlanOf.{IsPlanOf};
ghost use Rattle.hw_sched.specs.Slots.{shared_operations};
ghost use Rattle.hw_sched.specs.Storage.{kept_by_role as kept_by_role_of, keeps_own as keeps_own_of, registers_at as registers_at_of};
ghost use Rattle.hw_sched.specs.Storage.{registers_in_all as registers_in_all_of};
ghost use Rattle.hw_sched.specs.inner.Counts.{capped, results_at as results_at_of, values_kept as values_kept_of};

use crate::drivers::{own_width, period_into};
use dg_model::{Checked, Kind, Resolved, Role};
use hw_latency::{block_at, is_shared};

/// Whether a Delay with this control and a driver of this period keeps its own values.
fn keeps_own(enable: Option<u32>, driver: Option<u32>) -> bool
    ensures { result ≡ keeps_own_of enable driver }
{
    enable.is_some() || driver.is_none()
}

/// How many values of each element a block keeps by its role.
fn kept_by_role(role: Role) -> u64
    ensures is { result ≡ kept_by_role_of role }
    ensures few { result ≤ 1 }
{
    match role {
        Role::EnabledOutput => 1,
        Role::RootInput { .. }
        | Role::RootOutput { .. }
        | Role::InnerPort { .. }
        | Role::Control
        | Role::Plain => 0,
    }
}

/// How many values of each element a block of this kind keeps beside lines and its pipeline.
fn values_kept(kind: &Kind, keeps_own: bool) -> u64
    ensures is { result ≡ values_kept_of kind.now keeps_own }
    ensures few { result ≤ 2 ^ 32 }
{
    let row = kind.row();
    let kept = kept_by_role(row.role);
    if keeps_own {
        u64::from(row.delay) + kept
    } else {
        kept
    }
}

/// The registers of a block beside lines, saturating.
fn registers_at(checked: &Checked, plan: &Resolved, place: u32) -> u128
    requires plan { IsPlanOf checked.now.diagram plan.now }
    requires there { place < length checked.now.diagram.blocks }
    ensures { result ≡ capped (registers_at_of checked.now.diagram
        (attributes_of checked.now.diagram) plan.now
        place (slice_get checked.now.diagram.blocks place)) }
{
    let block = block_at(checked, place);
    let keeps = keeps_own(block.enable, period_into(checked, place));
    let kept = values_kept(&block.kind, keeps);
    let stages = plan.stages.as_slice()[place as usize];
    let each = u64::from(stages) + kept;
    u128::from(own_width(checked, place)).saturating_mul(u128::from(each))
}

/// The results of the shared operations of a block.
fn results_at(checked: &Checked, plan: &Resolved, place: u32) -> u32
    requires plan { IsPlanOf checked.now.diagram plan.now }
    requires there { place < length checked.now.diagram.blocks }
    ensures { result
        ≡ results_at_of checked.now.diagram (attributes_of checked.now.diagram) plan.now place }
{
    if is_shared(checked, plan, place) {
        own_width(checked, place)
    } else {
        0
    }
}

/// The registers of all blocks beside lines, and the results of all shared operations, one each,
/// saturating.
pub fn blocks_in_all(checked: &Checked, plan: &Resolved) -> u128
    requires plan { IsPlanOf checked.now.diagram plan.now }
    ensures { result ≡ capped (registers_in_all_of checked.now.diagram
        (attributes_of checked.now.diagram) plan.now
        + length (shared_operations checked.now.diagram (attributes_of checked.now.diagram)
        plan.now)) }
{
    checked.keeps_rules();
    let blocks = checked.diagram().blocks.as_slice();
    let mut all = 0u128;
    for place in 0..blocks.len() {
        let registers = registers_at(checked, plan, place as u32);
        let results = results_at(checked, plan, place as u32);
        all = all
            .saturating_add(registers)
            .saturating_add(u128::from(results));
    }
    all
}
