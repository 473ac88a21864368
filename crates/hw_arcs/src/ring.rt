ghost use Rattle.std.specs.Prelude.{◌≡◌, ◌+◌, ◌≤◌, ◌<◌, All, IfOk, length, slice_index};
ghost use Rattle.hw_arcs.specs.Found.{AreKnown, most_gain, most_joined_blocks};
ghost use Rattle.hw_arcs.specs.inner.Walk.{AreGiven, IsRing, IsTurnedBack, gain_into, gains_of, slack_into, slacks_of};

use crate::arc::Arc;
use fx_io::{OutOfMemory, Sizes};
use std::alloc::Global;

/// The place of the least of some blocks.
fn least_place(blocks: &[u32]) -> usize
    requires some { 0 < length blocks.now }
    ensures there { result < length blocks.now }
    ensures least { All (λ block. slice_index blocks.now result ≤ block) blocks.now }
{
    let mut place = 0;
    for (k, block) in blocks.iter().enumerate() {
        if *block < blocks[place] {
            place = k;
        }
    }
    place
}

/// The blocks of a ring in the other direction, from the least on.
pub fn turn_back(alloc: Global, ring: &[u32]) -> Result<Sizes, OutOfMemory>
    requires some { 0 < length ring.now }
    ensures { IfOk result (IsTurnedBack ring.now) }
{
    let place = least_place(ring);
    let mut cycle = Vec::from_slice(alloc, ring)?;
    cycle.rotate_left(place + 1);
    cycle.reverse();
    Ok(Sizes::from_vec(cycle))
}

/// The gain and the slack of the arc that gave a block its latency.
fn asked_into(arcs: &[Arc], tight: &[Option<u32>], block: u32) -> (u64, u64)
    requires known { AreKnown arcs.now (length tight.now) }
    requires given { AreGiven arcs.now tight.now }
    requires there { block < length tight.now }
    ensures gain { result.0 ≡ gain_into arcs.now tight.now block }
    ensures small { result.0 ≤ most_gain }
    ensures slack { result.1 ≡ slack_into arcs.now tight.now block }
{
    match tight[block as usize] {
        Some(number) => {
            let arc = arcs[number as usize];
            (arc.gain, arc.slack)
        }
        None => (0, 0),
    }
}

/// What a ring gains.
pub fn total_of(arcs: &[Arc], tight: &[Option<u32>], ring: &[u32]) -> u64
    requires known { AreKnown arcs.now (length tight.now) }
    requires given { AreGiven arcs.now tight.now }
    requires few { length tight.now ≤ most_joined_blocks }
    requires ring { IsRing arcs.now tight.now ring.now (length tight.now) }
    ensures { result + slacks_of arcs.now tight.now ring.now
        ≡ gains_of arcs.now tight.now ring.now }
{
    let mut gains: u128 = 0;
    let mut slacks: u128 = 0;
    for block in ring {
        let (gain, slack) = asked_into(arcs, tight, *block);
        gains += u128::from(gain);
        slacks += u128::from(slack);
    }
    (gains - slacks) as u64
}
