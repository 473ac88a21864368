//! Operations that share multipliers.
ghost use Rattle.std.specs.Prelude.{◌<◌, ◌≤◌, IfOk};
ghost use Rattle.hw_net.specs.Emittable.{most_cycles};
ghost use Rattle.hw_share.specs.Operations.{CanShare};
ghost use Rattle.hw_share.specs.Shared.{SharesUnits};

use crate::joining::ends_of;
use crate::keeping::results_of;
use crate::multiplying::multipliers;
use crate::operation::Operation;
use fx_io::{OutOfMemory, Sizes};
use hw_net::{Netlist, register_is_closed};
use std::alloc::Global;

/// What operations share.
#[derive(Drop)]
pub struct Shared {
    /// The Unit nets, by multiplier.
    pub numbers: Sizes,
    /// The registers of products, by operation.
    pub results: Sizes,
}

/// Puts in the multipliers that operations share, in the order of their numbers, and for each
/// operation a register; their numbers are the answer. In the rows of every later netlist that
/// keeps these nets, the multiplier of an operation has its operands in its slot, and its register
/// shows their product from the next clock to the end of the frame. Each operation costs at most
/// seven nets and as many look-ups of Counters. Where memory is wanting the netlist is of no more
/// use. Source: own; HDL Coder, resource sharing.
pub fn units(
    alloc: Global,
    net: &mut Netlist,
    operations: &[Operation],
) -> Result<Shared, OutOfMemory>
    requires low { 0 < net.old.cycles }
    requires high { net.old.cycles ≤ most_cycles }
    requires can { CanShare net.old operations.now }
    ensures { IfOk result (λ shared. SharesUnits net.old net.new operations.now shared) }
{
    register_is_closed();
    let ends = ends_of(alloc, net, operations)?;
    let numbers = multipliers(alloc, net, ends.as_slice())?;
    let results = results_of(alloc, net, operations, numbers.as_slice())?;
    Ok(Shared { numbers, results })
}
