//! Sums of what a net shows in some clocks of a frame, gathered clock by clock.
ghost use Rattle.std.specs.Prelude.{◌≡◌, ◌≤◌, ℕ, All, IfOk, Some, length, false};
ghost use Rattle.hw_net.specs.Netlist.{HasWord};
ghost use Rattle.hw_share.specs.Gathered.{CanGather, IsGathered};
ghost use Rattle.hw_share.specs.inner.Choices.{IsSlotOf};
ghost use Rattle.hw_share.specs.inner.Gates.{IsGateAt, Opens};

use crate::choosing::choose;
use crate::testing::test_at;
use fx_io::OutOfMemory;
use hw_net::{Frame, Net, NetKind, Netlist, accumulator_is_closed};
use std::alloc::Global;

/// Puts in a net that tells the clocks of one slot more than the one that is known.
fn add_slot(
    alloc: Global,
    net: &mut Netlist,
    frame: Frame,
    known: Option<u32>,
    slot: u64,
) -> Result<u32, OutOfMemory>
    requires slot { IsSlotOf net.old frame slot }
    requires known { (gate : ℕ) → known ≡ Some gate → HasWord net.old.nets gate 1 false }
    ensures { IfOk result (λ number. Opens net.old net.new frame known slot number) }
{
    let test = test_at(alloc, net, frame, slot)?;
    let Some(gate) = known else {
        return Ok(test);
    };
    choose(alloc, net, test, test, gate)
}

/// Puts in a net that isn't 0 in the clocks of these slots, and else 0.
fn gate_of(
    alloc: Global,
    net: &mut Netlist,
    frame: Frame,
    slots: &[u64],
) -> Result<u32, OutOfMemory>
    requires some { 1 ≤ length slots.now }
    requires slots { All (λ slot. IsSlotOf net.old frame slot) slots.now }
    ensures { IfOk result (λ number. IsGateAt net.old net.new frame slots.now number) }
{
    let mut known = None;
    for slot in slots {
        let gate = add_slot(alloc, net, frame, known, *slot)?;
        known = Some(gate);
    }
    Ok(known.unwrap())
}

/// Puts in a net that gathers what another shows in the clocks of these slots of a frame, cut to its
/// word: from behind the last of them to the end of the frame it shows their sum. It costs four nets
/// a slot. Where memory is wanting the netlist is of no more use. Source: own.
pub fn accumulate(
    alloc: Global,
    net: &mut Netlist,
    frame: Frame,
    from: u32,
    slots: &[u64],
) -> Result<u32, OutOfMemory>
    requires { CanGather net.old frame from slots.now }
    ensures { IfOk result (λ number. IsGathered net.old net.new frame from slots.now number) }
{
    accumulator_is_closed();
    let enable = gate_of(alloc, net, frame, slots)?;
    let _ = net.counter(frame)?;
    let one = &net.nets()[from as usize];
    let (signed, width) = (one.signed, one.width);
    net.add(Net {
        signed,
        width,
        kind: NetKind::Acc {
            frame,
            enable,
            from,
        },
    })
}
