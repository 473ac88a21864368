//! Tests for clocks of frames, of which there is one for each clock.
ghost use Rattle.std.specs.Prelude.{[], IfOk, OnOk, ◌≡◌};
ghost use Rattle.hw_net.specs.Circuit.{Circuit};
ghost use Rattle.hw_net.specs.Growing.{Extends};
ghost use Rattle.hw_share.specs.inner.Choices.{IsSlotOf};
ghost use Rattle.hw_share.specs.inner.Parts.{Grows, IsChoosing};
ghost use Rattle.hw_share.specs.inner.ClockTests.{IsTested};

use crate::testing::test_at;
use fx_io::OutOfMemory;
use hw_net::{Frame, Netlist};
use std::alloc::Global;
use std::collections::BTreeMap;

/// A clock of a frame.
#[derive(Clone, Copy, PartialEq, Eq, PartialOrd, Ord)]
pub struct Moment {
    pub frame: Frame,
    pub slot: u64,
}

/// The nets that test for clocks, by their clocks.
pub type Moments = BTreeMap<Moment, u32>;

/// The net that tests for the clock of a slot of each frame, which is put in where there is none.
pub fn test_for(
    alloc: Global,
    net: &mut Netlist,
    moments: &mut Moments,
    frame: Frame,
    slot: u64,
) -> Result<u32, OutOfMemory>
    requires { IsSlotOf net.old frame slot }
    ensures test { IfOk result (λ number. (before : Circuit) → Extends before net.old
        → IsTested before net.old net.new moments.old.entries moments.new.entries frame slot
        number) }
    ensures grown { OnOk result
        (Grows net.old net.new [] (IsChoosing (λ other. other ≡ frame)) 0) }
{
    let moment = Moment { frame, slot };
    if let Some(number) = moments.get(&moment).copied() {
        return Ok(number);
    }
    let number = test_at(alloc, net, frame, slot)?;
    let _ = moments.insert(moment, number)?;
    Ok(number)
}
