//! Sums that are gathered clock by clock.
ghost use Rattle.std.specs.Prelude.{◌≡◌, true};
ghost use Rattle.hw_lines.specs.Register.{IsThere};
ghost use Rattle.hw_share.specs.Gathered.{CanGather};
ghost use Rattle.tests_hardware.specs.inner.GatherTests.{AreRising};

use crate::nets::frame_of;
use crate::reading::{Told, told_in};
use anyhow::{Error, Result};
use fx_io::Sizes;
use fx_num::is_word;
use hw_net::{Frame, Netlist};
use hw_share::accumulate;
use std::alloc::Global;
use tests_rows::Row;

/// Whether slots rise, below the length of a frame.
fn are_rising(slots: &[u64], length: u64) -> bool
    ensures { result ≡ true → AreRising slots.now length }
{
    let mut least = 0u64;
    for slot in slots {
        if *slot < least || length <= *slot {
            return false;
        }
        least = *slot + 1;
    }
    true
}

/// Whether a net is there, in a word.
fn is_there(net: &Netlist, number: u32) -> bool
    ensures { result ≡ true → IsThere net.now number }
{
    let Some(one) = net.nets().get(number as usize) else {
        return false;
    };
    is_word(one.width, one.signed)
}

/// Whether what a net shows in these slots can be gathered.
fn can_gather(net: &Netlist, frame: Frame, from: u32, slots: &[u64]) -> bool
    ensures { result ≡ true → CanGather net.now frame from slots.now }
{
    if !is_there(net, from) || slots.is_empty() {
        return false;
    }
    if net.cycles() == 0 || frame.period == 0 {
        return false;
    }
    are_rising(slots, u64::from(frame.period) * u64::from(net.cycles()))
}

impl Told for u64 {
    fn from_row(row: &mut Row<'_>) -> Result<u64> {
        row.long()
    }
}

/// Puts in what gathers a net in the slots that a text has, and gives its number.
pub fn put_gathered(alloc: Global, net: &mut Netlist, row: &mut Row<'_>) -> Result<Sizes> {
    let slots = told_in::<u64>(alloc, row.text.as_slice(), 1)?;
    let frame = frame_of(row)?;
    let from = row.number()?;
    if !can_gather(net, frame, from, slots.as_slice()) {
        return Err(Error::msg("these slots can't be gathered"));
    }
    let mut answers = Sizes::new(alloc);
    answers.push(accumulate(alloc, net, frame, from, slots.as_slice())?)?;
    Ok(answers)
}
