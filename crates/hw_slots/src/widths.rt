ghost use Rattle.std.specs.Prelude.{◌≡◌, ◌<◌, IfOk};
ghost use Rattle.hw_slots.specs.inner.Counts.{AreCounts, AreLevels, AreMost, AreWidths};

use crate::operation::Operation;
use crate::tally::{Tally, total};
use fx_io::OutOfMemory;
use std::alloc::Global;

/// How many slots each level of each period takes.
pub fn widths_of(
    alloc: Global,
    operations: &[Operation],
    counts: &Tally,
    multipliers: u64,
) -> Result<Tally, OutOfMemory>
    requires some { 0 < multipliers }
    requires counts { AreCounts operations.now counts.now }
    ensures { IfOk result (λ widths. AreWidths operations.now multipliers widths) }
{
    let mut widths = Tally::new(alloc);
    for operation in operations {
        let operation = *operation;
        let count = counts.get(operation.kind, operation.level);
        let slots = count.div_ceil(multipliers);
        widths.raise(operation.period, operation.level, slots)?;
    }
    Ok(widths)
}

/// How many levels each period has.
pub fn levels_of(alloc: Global, operations: &[Operation]) -> Result<Tally, OutOfMemory>
    ensures { IfOk result (λ levels. AreLevels operations.now levels) }
{
    let mut levels = Tally::new(alloc);
    for operation in operations {
        let operation = *operation;
        let after = total(operation.level, 1)?;
        levels.raise(operation.period, 0, after)?;
    }
    Ok(levels)
}

/// The most operations of each kind at one level.
pub fn most_of(
    alloc: Global,
    operations: &[Operation],
    counts: &Tally,
) -> Result<Tally, OutOfMemory>
    requires counts { AreCounts operations.now counts.now }
    ensures { IfOk result (λ most. AreMost operations.now most) }
{
    let mut most = Tally::new(alloc);
    for operation in operations {
        let operation = *operation;
        let count = counts.get(operation.kind, operation.level);
        most.raise(operation.kind, 0, count)?;
    }
    Ok(most)
}
