//! Shared operations as `hw_slots` takes them.
ghost use Rattle.std.specs.Prelude.{◌≡◌, ◌<◌, ◌++◌, ◌∷◌, IfOk, List, OnOk, length};
ghost use Rattle.dg_model.specs.declared.diagram.Diagram.{Diagram};
ghost use Rattle.dg_model.specs.declared.resolved.Resolved.{Resolved};
ghost use Rattle.dg_model.specs.Attributes.{attributes_of};
ghost use Rattle.hw_sched.specs.Slots.{Timing, Operation as Shared, shared_operations};
ghost use Rattle.hw_sched.specs.Answer.{timing_of};
ghost use Rattle.hw_sched.specs.inner.Cells.{AreCells, AreCellsBut, AreKnown, IsSort, shared_at};

use crate::drivers::{own_width, type_into};
use crate::keys::KindKey;
use crate::numbers::KindNumbers;
use crate::operands::right_of;
use dg_model::{Checked, Resolved};
use fx_io::OutOfMemory;
use hw_latency::{Latencies, is_shared, samples};
use hw_slots::Operation;
use std::alloc::Global;

/// What the operations of a block have in common.
#[derive(Clone, Copy)]
pub struct Sort {
    /// Their kind.
    pub key: KindKey,
    /// Their period, 0 where their values never change.
    pub period: u64,
    /// How many shared blocks of the period stand before theirs at the most.
    pub level: u64,
}

/// Shared operations by the numbers of their kinds.
#[derive(Drop)]
pub struct Cells {
    /// Each operation with the number of its kind.
    pub operations: Vec<Operation>,
    /// The kinds that they have.
    pub numbers: KindNumbers,
}

/// What the operations of a block have in common.
fn sort_of(checked: &Checked, latencies: &Latencies, depths: &[u64], place: u32) -> Sort
    requires lat { length latencies.now.lat ≡ length checked.now.diagram.blocks }
    requires depths { length depths.now ≡ length checked.now.diagram.blocks }
    requires there { place < length checked.now.diagram.blocks }
    ensures { IsSort checked.now.diagram (timing_of latencies.now depths.now) place result }
{
    let period = u64::from(samples(checked.period(place)));
    let lat = latencies.lat.as_slice()[place as usize];
    let left = type_into(checked, place, 1);
    let right = right_of(checked, place);
    Sort {
        key: KindKey::of(period, lat, left, right),
        period,
        level: depths[place as usize].saturating_sub(1),
    }
}

impl Cells {
    /// No operation. It takes no memory.
    fn new(alloc: Global) -> Cells
        ensures { (diagram : Diagram) (plan : Resolved) (timing : Timing)
            → AreCellsBut diagram plan timing
            (shared_operations diagram (attributes_of diagram) plan) result }
    {
        let operations = Vec::new(alloc);
        let numbers = KindNumbers::new(alloc);
        Cells {
            operations,
            numbers,
        }
    }

    /// Numbers one operation more.
    fn put(&mut self, sort: Sort) -> Result<(), OutOfMemory>
        ensures { OnOk result ((diagram : Diagram) (plan : Resolved) (timing : Timing)
            (o : Shared) (rest : List Shared) → IsSort diagram timing o.block sort
            → AreCellsBut diagram plan timing (o ∷ rest) self.old
            → AreCellsBut diagram plan timing rest self.new) }
    {
        let kind = self.numbers.number(sort.key)?;
        self.operations.push(Operation {
            kind,
            period: sort.period,
            level: sort.level,
        })?;
        Ok(())
    }
}

/// Numbers the operations of a block, if they are shared.
fn put_block(
    checked: &Checked,
    plan: &Resolved,
    latencies: &Latencies,
    depths: &[u64],
    cells: &mut Cells,
    place: u32,
) -> Result<(), OutOfMemory>
    requires known { AreKnown checked.now.diagram plan.now latencies.now depths.now }
    requires there { place < length checked.now.diagram.blocks }
    ensures { OnOk result ((rest : List Shared)
        → AreCellsBut checked.now.diagram plan.now (timing_of latencies.now depths.now)
        (shared_at checked.now.diagram plan.now place ++ rest) cells.old
        → AreCellsBut checked.now.diagram plan.now (timing_of latencies.now depths.now)
        rest cells.new) }
{
    if !is_shared(checked, plan, place) {
        return Ok(());
    }
    let sort = sort_of(checked, latencies, depths, place);
    let width = own_width(checked, place);
    for _element in 0..width {
        cells.put(sort)?;
    }
    Ok(())
}

/// The shared operations by the numbers of their kinds, in order of their blocks and elements.
pub fn cells_of(
    alloc: Global,
    checked: &Checked,
    plan: &Resolved,
    latencies: &Latencies,
    depths: &[u64],
) -> Result<Cells, OutOfMemory>
    requires { AreKnown checked.now.diagram plan.now latencies.now depths.now }
    ensures { IfOk result
        (AreCells checked.now.diagram plan.now (timing_of latencies.now depths.now)) }
{
    checked.keeps_rules();
    let mut cells = Cells::new(alloc);
    for place in 0..depths.len() {
        put_block(checked, plan, latencies, depths, &mut cells, place as u32)?;
    }
    Ok(cells)
}
