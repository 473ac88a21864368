ghost use Rattle.std.specs.Prelude.{◌≡◌, ◌+◌, ◌<◌, [], true, false, IfOk, OnOk, length};
ghost use Rattle.dg_sort.specs.inner.Back.{IsOnCycle};
ghost use Rattle.dg_sort.specs.inner.Cycle.{AreClosed, AreSteps, IsFoundAt, IsMet, IsReadCycle};
ghost use Rattle.dg_sort.specs.Rows.{AreKnown};

use fx_io::{OutOfMemory, Sizes};
use std::alloc::Global;

/// A block that was met on the way back: the block at the place `next` among those that were met
/// reads it.
#[derive(Clone, Copy)]
pub struct Step {
    pub block: u32,
    pub next: usize,
}

/// Meets what a block reads, each block once, and tells whether the first is among it.
fn look(
    rows: &[Sizes],
    at: usize,
    first: u32,
    steps: &mut Vec<Step>,
    is_met: &mut Vec<bool>,
) -> Result<bool, OutOfMemory>
    requires known { AreKnown rows.now }
    requires steps { AreSteps rows.now first steps.old.items is_met.old.items }
    requires there { at < length steps.old.items }
    requires closed { AreClosed rows.now first at steps.old.items is_met.old.items }
    ensures steps { OnOk result (AreSteps rows.now first steps.new.items is_met.new.items) }
    ensures there { OnOk result (at < length steps.new.items) }
    ensures found { IfOk result (λ found. found ≡ true
        → IsFoundAt rows.now first steps.new.items at) }
    ensures closed { IfOk result (λ found. found ≡ false
        → AreClosed rows.now first (at + 1) steps.new.items is_met.new.items) }
{
    let block = steps[at].block;
    let row = rows[block as usize].as_slice();
    for source in row {
        let source = *source;
        if source == first {
            return Ok(true);
        }
        if !is_met[source as usize] {
            is_met[source as usize] = true;
            steps.push(Step {
                block: source,
                next: at,
            })?;
        }
    }
    Ok(false)
}

/// Meets the blocks on the way back from one that lies on a cycle, until one reads it, and tells
/// its place.
fn steps_back(
    alloc: Global,
    rows: &[Sizes],
    first: u32,
    steps: &mut Vec<Step>,
) -> Result<usize, OutOfMemory>
    requires known { AreKnown rows.now }
    requires there { first < length rows.now }
    requires on { IsOnCycle rows.now first }
    requires none { steps.old.items ≡ [] }
    ensures steps { OnOk result (IsMet rows.now first steps.new.items) }
    ensures found { IfOk result (λ at. IsFoundAt rows.now first steps.new.items at) }
{
    let mut is_met = vec![in alloc; false; rows.len()]?;
    is_met[first as usize] = true;
    steps.push(Step {
        block: first,
        next: 0,
    })?;
    let mut at = 0;
    'back: loop {
        if look(rows, at, first, steps, &mut is_met)? {
            return Ok(at);
        }
        at += 1;
    }
}

/// A cycle that begins with a block that lies on one: each block is read by the next, and the last
/// by the first.
pub fn cycle_from(alloc: Global, rows: &[Sizes], first: u32) -> Result<Sizes, OutOfMemory>
    requires known { AreKnown rows.now }
    requires there { first < length rows.now }
    requires on { IsOnCycle rows.now first }
    ensures { IfOk result (IsReadCycle rows.now first) }
{
    let mut steps = Vec::new(alloc);
    let mut at = steps_back(alloc, rows, first, &mut steps)?;
    let mut cycle = Sizes::new(alloc);
    cycle.push(first)?;
    while at > 0 {
        let step = steps[at];
        cycle.push(step.block)?;
        at = step.next;
    }
    Ok(cycle)
}
