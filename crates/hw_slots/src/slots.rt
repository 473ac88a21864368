ghost use Rattle.std.specs.Prelude.{◌<◌, IfErr, IfOk, length};
ghost use Rattle.hw_slots.specs.Answer.{AreSlots, AreUnits, IsSlotFault};
ghost use Rattle.hw_slots.specs.inner.Counts.{AreCounts, AreLaid, AreLevels, CanServe};

use crate::bases::Bases;
use crate::firsts::firsts_of;
use crate::laying::bases_of;
use crate::operation::{Operation, Span};
use crate::placing::{starts_of, units_of};
use crate::tally::Tally;
use crate::turns::{Turns, turns_of};
use crate::widths::{levels_of, most_of, widths_of};
use fx_io::{Longs, OutOfMemory};
use std::alloc::Global;

/// When and where operations are served (own; HDL Coder, resource sharing).
#[derive(Drop)]
pub struct Slots {
    /// The slot of each operation in its period.
    pub starts: Longs,
    /// The multiplier of each operation.
    pub units: Longs,
    /// The first slots of levels.
    pub bases: Bases,
}

/// Why there are no slots (own).
#[derive(Drop)]
pub enum SlotFault {
    /// The first period whose operations need more slots than it has.
    Budget { period: u32, need: u64, have: u64 },
    /// Memory is wanting, a period's number is 2^32 or more, or another number is 2^64 or more.
    OutOfMemory,
}

impl From<OutOfMemory> for SlotFault {
    ghost use Rattle.std.specs.Prelude.{◌≡◌};
    ghost use Rattle.hw_slots.specs.declared.slots.SlotFault.TheVariants.{OutOfMemory};

    ghost from_gives = { λ _ fault. fault ≡ OutOfMemory };

    fn from(_refused: OutOfMemory) -> SlotFault {
        SlotFault::OutOfMemory
    }
}

/// The first slots of the levels of periods, of which these are how many each has, by the counts of
/// operations.
fn bases_by(
    alloc: Global,
    operations: &[Operation],
    periods: &[Span],
    multipliers: u64,
    counts: &Tally,
    levels: &Tally,
) -> Result<Tally, SlotFault>
    requires some { 0 < multipliers }
    requires counts { AreCounts operations.now counts.now }
    requires levels { AreLevels operations.now levels.now }
    ensures laid { IfOk result (λ bases.
        AreLaid operations.now multipliers periods.now (length periods.now) bases) }
    ensures short { IfErr result (IsSlotFault operations.now multipliers periods.now) }
{
    let widths = widths_of(alloc, operations, counts, multipliers)?;
    let bases = bases_of(alloc, operations, periods, multipliers, &widths, levels);
    drop(widths);
    bases
}

impl Turns {
    /// The multiplier of each operation, where each of `kinds` kinds has at most so many.
    fn units(
        &self,
        alloc: Global,
        operations: &[Operation],
        multipliers: u64,
        kinds: u64,
    ) -> Result<Longs, OutOfMemory>
        requires { CanServe operations.now multipliers self.now }
        ensures { IfOk result (λ units.
            AreUnits operations.now multipliers kinds (length operations.now) units) }
    {
        let most = most_of(alloc, operations, &self.counts)?;
        let firsts = firsts_of(alloc, &most, multipliers, kinds);
        drop(most);
        let firsts = firsts?;
        let turns = self.turns.as_slice();
        let units = units_of(alloc, operations, multipliers, kinds, turns, &firsts);
        drop(firsts);
        units
    }
}

/// When and where operations are served, by their turns.
fn slots_by(
    alloc: Global,
    operations: &[Operation],
    periods: &[Span],
    multipliers: u64,
    kinds: u64,
    made: &Turns,
) -> Result<Slots, SlotFault>
    requires { CanServe operations.now multipliers made.now }
    ensures slots { IfOk result (AreSlots operations.now multipliers periods.now kinds) }
    ensures short { IfErr result (IsSlotFault operations.now multipliers periods.now) }
{
    let turns = made.turns.as_slice();
    let levels = levels_of(alloc, operations)?;
    let bases = bases_by(
        alloc,
        operations,
        periods,
        multipliers,
        &made.counts,
        &levels,
    )?;
    let starts = starts_of(alloc, operations, periods, multipliers, turns, &bases)?;
    let units = made.units(alloc, operations, multipliers, kinds)?;
    let bases = Bases::new(bases, levels);
    Ok(Slots {
        starts,
        units,
        bases,
    })
}

/// The slot and the multiplier of each operation and the first slots of levels, where each of
/// `kinds` kinds has at most so many multipliers, or the first period that has too few slots. Its
/// time is that of the operations, kinds and levels, each with a few look-ups in trees.
pub fn slots_of(
    alloc: Global,
    operations: &[Operation],
    periods: &[Span],
    multipliers: u64,
    kinds: u64,
) -> Result<Slots, SlotFault>
    requires some { 0 < multipliers }
    ensures slots { IfOk result (AreSlots operations.now multipliers periods.now kinds) }
    ensures short { IfErr result (IsSlotFault operations.now multipliers periods.now) }
{
    let made = turns_of(alloc, operations)?;
    let slots = slots_by(alloc, operations, periods, multipliers, kinds, &made);
    drop(made);
    slots
}
