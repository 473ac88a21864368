ghost use Rattle.std.specs.Prelude.{IfOk, length};
ghost use Rattle.hw_slots.specs.Answer.{AreStarts, AreUnits};
ghost use Rattle.hw_slots.specs.inner.Counts.{AreFirst, AreLaid, CanPlace};

use crate::operation::{Operation, Span};
use crate::tally::{Tally, total};
use fx_io::{Longs, OutOfMemory};
use std::alloc::Global;

/// The slot of each operation.
pub fn starts_of(
    alloc: Global,
    operations: &[Operation],
    periods: &[Span],
    multipliers: u64,
    turns: &[u64],
    bases: &Tally,
) -> Result<Longs, OutOfMemory>
    requires turns { CanPlace operations.now multipliers turns.now }
    requires bases { AreLaid operations.now multipliers periods.now (length periods.now) bases.now }
    ensures { IfOk result (λ starts.
        AreStarts operations.now multipliers periods.now (length operations.now) starts) }
{
    let mut starts = Longs::new(alloc);
    for place in 0..operations.len() {
        let operation = operations[place];
        let base = bases.get(operation.period, operation.level);
        let start = total(base, turns[place] / multipliers)?;
        starts.push(start)?;
    }
    Ok(starts)
}

/// The multiplier of each operation.
pub fn units_of(
    alloc: Global,
    operations: &[Operation],
    multipliers: u64,
    kinds: u64,
    turns: &[u64],
    firsts: &Tally,
) -> Result<Longs, OutOfMemory>
    requires turns { CanPlace operations.now multipliers turns.now }
    requires firsts { AreFirst operations.now multipliers kinds firsts.now }
    ensures { IfOk result (λ units.
        AreUnits operations.now multipliers kinds (length operations.now) units) }
{
    let mut units = Longs::new(alloc);
    for place in 0..operations.len() {
        let operation = operations[place];
        let first = firsts.get(operation.kind, 0);
        let unit = total(first, turns[place] % multipliers)?;
        units.push(unit)?;
    }
    Ok(units)
}
