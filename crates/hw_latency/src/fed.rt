ghost use Rattle.std.specs.Prelude.{◌≡◌, ◌+◌, ◌<◌, false, true, ℕ, IfOk, List, length};
ghost use Rattle.dg_model.specs.Attributes.{attributes_of};
ghost use Rattle.dg_model.specs.PlanOf.{IsPlanOf};
ghost use Rattle.hw_latency.specs.Cone.{AreFed};
ghost use Rattle.dg_sort.specs.Rows.{AreRows};
ghost use Rattle.hw_latency.specs.inner.Marks.{AreBelow, AreFedUpTo, AreUnmarked};
ghost use Rattle.hw_latency.specs.inner.Marks.{IsAnyMarked, IsMark, IsNext};

use crate::periods::periods_of;
use crate::shared::is_shared;
use dg_model::{Checked, Resolved};
use dg_sort::rows_of;
use fx_io::{OutOfMemory, Sizes};
use std::alloc::Global;

/// Whether a block of a row is marked.
fn is_any_marked(marks: &[bool], row: &[u32]) -> bool
    requires { AreBelow row.now (length marks.now) }
    ensures yes { result ≡ true → IsAnyMarked marks.now row.now }
    ensures no { result ≡ false → AreUnmarked marks.now row.now (length row.now) }
{
    for source in row {
        let source = *source;
        if marks[source as usize] {
            return true;
        }
    }
    false
}

/// Whether a block is a shared operation, or reads a block that is marked.
fn is_mark(checked: &Checked, plan: &Resolved, marks: &[bool], row: &[u32], place: u32) -> bool
    requires plan { IsPlanOf checked.now.diagram plan.now }
    requires there { place < length checked.now.diagram.blocks }
    requires below { AreBelow row.now (length marks.now) }
    ensures { IsMark checked.now.diagram plan.now marks.now row.now place result }
{
    if is_shared(checked, plan, place) {
        return true;
    }
    is_any_marked(marks, row)
}

/// Marks a block whose row is marked already.
fn mark_one(checked: &Checked, plan: &Resolved, rows: &[Sizes], fed: &mut Vec<bool>, place: u32)
    requires plan { IsPlanOf checked.now.diagram plan.now }
    requires rows { AreRows checked.now.diagram rows.now }
    requires size { length fed.old.items ≡ length checked.now.diagram.blocks }
    requires there { place < length checked.now.diagram.blocks }
    ensures { (order : List ℕ) (i : ℕ) → IsNext checked.now.diagram order i place
        → AreFedUpTo checked.now.diagram plan.now order i fed.old.items
        → AreFedUpTo checked.now.diagram plan.now order (i + 1) fed.new.items }
{
    let row = rows[place as usize].as_slice();
    let mark = is_mark(checked, plan, fed.as_slice(), row, place);
    fed[place as usize] = mark;
}

/// Marks the blocks in whose instant cones shared operations stand.
pub fn fed_of(alloc: Global, checked: &Checked, plan: &Resolved) -> Result<Vec<bool>, OutOfMemory>
    requires plan { IsPlanOf checked.now.diagram plan.now }
    ensures { IfOk result (λ fed.
        AreFed checked.now.diagram (attributes_of checked.now.diagram) plan.now fed.items) }
{
    checked.keeps_rules();
    let diagram = checked.diagram();
    let periods = periods_of(alloc, checked)?;
    let rows = rows_of(alloc, diagram, periods.as_slice())?;
    let mut fed = vec![in alloc; false; diagram.blocks.as_slice().len()]?;
    for place in checked.order() {
        mark_one(checked, plan, rows.as_slice(), &mut fed, *place);
    }
    Ok(fed)
}
