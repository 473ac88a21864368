ghost use Rattle.std.specs.Prelude.{◌≡◌, ◌<◌, [], IfOk, MatchOption, Some, length, slice_get};
ghost use Rattle.hw_arcs.specs.Found.{AreKnown};
ghost use Rattle.hw_arcs.specs.inner.Walk.{AreGiven, IsOut, IsWalked};

use crate::arc::Arc;
use fx_io::OutOfMemory;
use std::alloc::Global;

/// The place of a block among those that were walked through.
fn place_of(path: &[u32], block: u32) -> Option<usize>
    ensures { MatchOption result (IsOut path.now block)
        (λ place. slice_get path.now place ≡ Some block) }
{
    path.iter().position(|other| *other == block)
}

/// Walks back from a block along the arcs that gave the latencies, through different blocks, and
/// tells the place of the block that it comes back to, if it does.
pub fn walk_back(
    alloc: Global,
    arcs: &[Arc],
    tight: &[Option<u32>],
    first: u32,
    path: &mut Vec<u32>,
) -> Result<Option<usize>, OutOfMemory>
    requires known { AreKnown arcs.now (length tight.now) }
    requires given { AreGiven arcs.now tight.now }
    requires there { first < length tight.now }
    requires none { path.old.items ≡ [] }
    ensures { IfOk result (IsWalked arcs.now tight.now first path.new.items (length tight.now)) }
{
    let mut met = vec![in alloc; false; tight.len()]?;
    let mut at = first;
    'walk: while !met[at as usize] {
        let Some(number) = tight[at as usize] else {
            return Ok(None);
        };
        met[at as usize] = true;
        path.push(at)?;
        at = arcs[number as usize].from;
    }
    Ok(place_of(path.as_slice(), at))
}
