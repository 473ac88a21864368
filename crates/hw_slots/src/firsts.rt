ghost use Rattle.std.specs.Prelude.{IfOk};
ghost use Rattle.hw_slots.specs.inner.Counts.{AreFirstBy};

use crate::tally::{Tally, total};
use fx_io::OutOfMemory;
use std::alloc::Global;

/// The number of the first multiplier of each kind below `kinds`, by how many a kind can use.
pub fn firsts_of(
    alloc: Global,
    most: &Tally,
    multipliers: u64,
    kinds: u64,
) -> Result<Tally, OutOfMemory>
    ensures { IfOk result (λ firsts. AreFirstBy most.now multipliers kinds firsts) }
{
    let mut firsts = Tally::new(alloc);
    let mut first = 0u64;
    for kind in 0..kinds {
        firsts.put(kind, 0, first)?;
        let units = multipliers.min(most.get(kind, 0));
        first = total(first, units)?;
    }
    Ok(firsts)
}
