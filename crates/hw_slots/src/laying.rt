ghost use Rattle.std.specs.Prelude.{◌≡◌, ◌+◌, IfOk, IfErr, OnOk, length};
ghost use Rattle.hw_slots.specs.Answer.{IsSlotFault};
ghost use Rattle.hw_slots.specs.inner.Counts.{AreLaid, AreLevels, AreWidths, AreBasesBy, IsElsewhere, base_by};

use crate::operation::{Operation, Span};
use crate::slots::SlotFault;
use crate::tally::{Tally, total};
use fx_io::OutOfMemory;
use std::alloc::Global;

/// Puts the first slot of each level of a period and the first behind all of them, and returns the
/// last.
fn lay_out(
    bases: &mut Tally,
    widths: &Tally,
    period: u64,
    levels: u64,
    start: u64,
) -> Result<u64, OutOfMemory>
    ensures need { IfOk result (λ need. need ≡ base_by widths.now start period levels) }
    ensures bases { OnOk result (AreBasesBy widths.now start period (levels + 1) bases.new) }
    ensures elsewhere { OnOk result (IsElsewhere period bases.old bases.new) }
{
    let mut slot = start;
    for level in 0..levels {
        bases.put(period, level, slot)?;
        slot = total(slot, widths.get(period, level))?;
    }
    bases.put(period, levels, slot)?;
    Ok(slot)
}

/// The first slot of each level of each period and of what is behind them, or the first period that
/// has too few slots.
pub fn bases_of(
    alloc: Global,
    operations: &[Operation],
    periods: &[Span],
    multipliers: u64,
    widths: &Tally,
    levels: &Tally,
) -> Result<Tally, SlotFault>
    requires widths { AreWidths operations.now multipliers widths.now }
    requires levels { AreLevels operations.now levels.now }
    ensures laid { IfOk result (λ bases.
        AreLaid operations.now multipliers periods.now (length periods.now) bases) }
    ensures short { IfErr result (IsSlotFault operations.now multipliers periods.now) }
{
    let mut bases = Tally::new(alloc);
    for place in 0..periods.len() {
        let Span { start, have } = periods[place];
        let period = place as u64;
        let need = lay_out(&mut bases, widths, period, levels.get(period, 0), start)?;
        if need > have {
            let Ok(period) = u32::try_from(place) else {
                // word: the number of a period, of 32 bits
                return Err(SlotFault::OutOfMemory);
            };
            return Err(SlotFault::Budget { period, need, have });
        }
    }
    Ok(bases)
}
