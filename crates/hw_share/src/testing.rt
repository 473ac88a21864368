//! A test for a clock of a frame, by the frame's Counter.
ghost use Rattle.std.specs.Prelude.{◌≡◌, ◌-◌, ◌<◌, ◌≤◌, ◌^◌, max, [], IfOk, OnOk, pos, false};
ghost use Rattle.math_num.specs.Word.{IsWord, InWord};
ghost use Rattle.hw_share.specs.inner.Parts.{Grows, IsChoosing};
ghost use Rattle.hw_share.specs.inner.Choices.{IsSlotOf, IsTestAt};

use crate::combining::combine;
use fx_io::OutOfMemory;
use hw_net::{Frame, NetOp, Netlist, counter_is_telling};
use std::alloc::Global;

/// How many bits the numbers below this one have, at least one.
fn bits_below(length: u64) -> u8
    requires some { 0 < length }
    ensures word { IsWord result false }
    ensures room { InWord result false (pos (length - 1)) }
    ensures least { 2 ^ (result - 1) ≤ max 1 (length - 1) }
{
    (length - 1).max(1).ilog2() as u8 + 1
}

/// Puts in a net that is 1 in the clock of a slot of each frame, and else 0: whether as many clocks
/// of the frame are to come.
pub fn test_at(
    alloc: Global,
    net: &mut Netlist,
    frame: Frame,
    slot: u64,
) -> Result<u32, OutOfMemory>
    requires { IsSlotOf net.old frame slot }
    ensures test { IfOk result (λ number. IsTestAt net.old net.new frame slot number) }
    ensures grown { OnOk result
        (Grows net.old net.new [] (IsChoosing (λ other. other ≡ frame)) 0) }
{
    counter_is_telling();
    let counter = net.counter(frame)?;
    let length = u64::from(frame.period) * u64::from(net.cycles());
    let left = NetOp::Const(i128::from(length - 1 - slot));
    let count = combine(alloc, net, left, &[], false, bits_below(length))?;
    combine(alloc, net, NetOp::Equal, &[counter, count], false, 1)
}
