//! The registers that keep products.
ghost use Rattle.std.specs.Prelude.{◌<◌, length, IfOk};
ghost use Rattle.hw_share.specs.inner.Steps.{AreResults, CanKeep};

use crate::operation::Operation;
use fx_io::{OutOfMemory, Sizes};
use hw_lines::register_at;
use hw_net::Netlist;
use std::alloc::Global;

/// Puts in a register for each operation, behind its multiplier, which is 0 before.
pub fn results_of(
    alloc: Global,
    net: &mut Netlist,
    operations: &[Operation],
    numbers: &[u32],
) -> Result<Sizes, OutOfMemory>
    requires cycles { 0 < net.old.cycles }
    requires can { CanKeep net.old operations.now numbers.now }
    ensures { IfOk result (λ results.
        AreResults net.old net.new operations.now numbers.now results (length operations.now)) }
{
    let mut results = Sizes::new(alloc);
    for one in operations {
        let from = numbers[one.unit as usize];
        let result = register_at(net, from, one.frame, one.slot as u32, 0)?;
        results.push(result)?;
    }
    Ok(results)
}
