ghost use Rattle.std.specs.Prelude.{IfOk, length};
ghost use Rattle.hw_slots.specs.inner.Counts.{AreCounts, AreTurns};

use crate::operation::Operation;
use crate::tally::{Tally, total};
use fx_io::{Longs, OutOfMemory};
use std::alloc::Global;

/// Where operations stand among those of their kind and level.
#[derive(Drop)]
pub struct Turns {
    /// The place of each operation.
    pub turns: Longs,
    /// How many there are, by kind and level.
    pub counts: Tally,
}

/// The turns of operations, and how many there are.
pub fn turns_of(alloc: Global, operations: &[Operation]) -> Result<Turns, OutOfMemory>
    ensures turns { IfOk result (λ made.
        AreTurns operations.now (length operations.now) made.turns) }
    ensures counts { IfOk result (λ made. AreCounts operations.now made.counts) }
{
    let mut turns = Longs::new(alloc);
    let mut counts = Tally::new(alloc);
    for operation in operations {
        let operation = *operation;
        let turn = counts.get(operation.kind, operation.level);
        turns.push(turn)?;
        let count = total(turn, 1)?;
        counts.put(operation.kind, operation.level, count)?;
    }
    Ok(Turns { turns, counts })
}
