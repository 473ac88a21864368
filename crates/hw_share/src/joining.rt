//! The chains of multipliers: operation after operation chooses its operands in its slot.
ghost use Rattle.std.specs.Prelude.{◌≡◌, ◌<◌, IfOk, length};
ghost use Rattle.hw_net.specs.Circuit.{Circuit};
ghost use Rattle.hw_net.specs.Growing.{Extends};
ghost use Rattle.hw_share.specs.Operations.{CanShare, unit_count};
ghost use Rattle.hw_share.specs.inner.ChainEnds.{AreEnds, CanJoin, IsJoined};
ghost use Rattle.hw_share.specs.inner.ClockTests.{AreTests};

use crate::choosing::choose;
use crate::moments::{Moments, test_for};
use crate::operation::Operation;
use fx_io::OutOfMemory;
use hw_net::Netlist;
use std::alloc::Global;

/// The nets that a multiplier multiplies.
#[derive(Clone, Copy)]
pub struct Ends {
    pub left: u32,
    pub right: u32,
}

/// The ends of a multiplier's chains with one operation more. The first has its operands as ends.
fn join(
    alloc: Global,
    net: &mut Netlist,
    moments: &mut Moments,
    known: Option<Ends>,
    one: Operation,
) -> Result<Ends, OutOfMemory>
    requires can { (old : Ends) → known ≡ Some old → CanJoin net.old old one }
    requires tests { (before : Circuit) × Extends before net.old
        × AreTests before net.old moments.old.entries }
    ensures { IfOk result (λ end. (before : Circuit) → Extends before net.old
        → AreTests before net.old moments.old.entries
        → IsJoined before net.old net.new known one end
        × AreTests before net.new moments.new.entries) }
{
    let Some(ends) = known else {
        return Ok(Ends {
            left: one.left,
            right: one.right,
        });
    };
    let test = test_for(alloc, net, moments, one.frame, one.slot)?;
    let left = choose(alloc, net, test, one.left, ends.left)?;
    let right = choose(alloc, net, test, one.right, ends.right)?;
    Ok(Ends { left, right })
}

/// How many multipliers operations have.
pub fn count_of(operations: &[Operation]) -> Result<u64, OutOfMemory>
    ensures { IfOk result (λ count. count ≡ unit_count operations.now) }
{
    let mut count = 0;
    for one in operations {
        let Some(behind) = one.unit.checked_add(1) else {
            // word: one more than the number of a multiplier, of 64 bits
            return Err(OutOfMemory);
        };
        count = behind.max(count);
    }
    Ok(count)
}

/// The ends of the chains of each multiplier, when all operations have joined them.
pub fn ends_of(
    alloc: Global,
    net: &mut Netlist,
    operations: &[Operation],
) -> Result<Vec<Option<Ends>>, OutOfMemory>
    requires cycles { 0 < net.old.cycles }
    requires can { CanShare net.old operations.now }
    ensures { IfOk result (λ ends.
        AreEnds net.old net.new operations.now ends.items (length operations.now)) }
{
    let count = count_of(operations)?;
    let mut ends = vec![in alloc; None; count as usize]?;
    let mut moments = Moments::new(alloc);
    for one in operations {
        let unit = one.unit as usize;
        let own = join(alloc, net, &mut moments, ends[unit], *one)?;
        ends[unit] = Some(own);
    }
    Ok(ends)
}
