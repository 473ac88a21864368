//! The rule on the ports of a model that is to take and give samples by valid and ready.
ghost use Rattle.std.specs.Prelude.{◌≡◌, ◌<◌, IfOk, OnOk, IfErr, length};
ghost use Rattle.dg_model.specs.Faults.{AllKeep, IsRefusal};
ghost use Rattle.cmd_generate.specs.Streamed.{BreaksStream, KeepsStream, is_root_port};
ghost use Rattle.cmd_generate.specs.inner.Steady.{is_base, is_slow, slow_fault};

use dg_model::{Block, CheckFault, Checked, Rule, RuleFault, Shown};
use fx_io::OutOfMemory;
use hw_latency::block_at;
use std::alloc::Global;

fn is_root_port(block: &Block) -> bool
    ensures { result ≡ is_root_port block.now }
{
    let role = block.kind.row().role;
    role.input_number().is_some() || role.output_number().is_some()
}

/// Whether a period is that of the base sample.
fn is_base(period: Option<u32>) -> bool
    ensures { result ≡ is_base period }
{
    match period {
        None => false,
        Some(period) => period == 1,
    }
}

/// Whether the block is a root port without a number in every base sample.
fn is_slow(checked: &Checked, place: u32) -> bool
    requires { place < length checked.now.diagram.blocks }
    ensures { result ≡ is_slow checked.now.diagram place }
{
    is_root_port(block_at(checked, place)) && !is_base(checked.period(place))
}

/// The fault of the rule at a block.
fn fault_at(alloc: Global, checked: &Checked, place: u32) -> Result<RuleFault, OutOfMemory>
    requires { place < length checked.now.diagram.blocks }
    ensures { IfOk result (λ fault. fault ≡ slow_fault checked.now.diagram place) }
{
    let own = checked.period(place).unwrap_or(0);
    Ok(RuleFault {
        rule: Rule::Stream,
        place: block_at(checked, place).path.text(alloc)?,
        shown: Shown::Periods { own, other: 1 },
    })
}

/// Whether each root port has a number in every base sample.
///
/// # Errors
/// Broken exactly where one hasn't: at the first, shown with its period. Or want of memory.
pub fn check_ports(alloc: Global, checked: &Checked) -> Result<(), CheckFault>
    ensures kept { OnOk result (AllKeep checked.now.diagram (KeepsStream checked.now.diagram)) }
    ensures refused { IfErr result (IsRefusal (BreaksStream checked.now.diagram)) }
{
    for place in 0..checked.diagram().blocks.as_slice().len() {
        let Ok(block) = u32::try_from(place) else {
            // word: blocks are numbered in 32 bits
            return Err(CheckFault::OutOfMemory);
        };
        if is_slow(checked, block) {
            return match fault_at(alloc, checked, block) {
                Ok(fault) => Err(CheckFault::Broken(fault)),
                Err(OutOfMemory) => Err(CheckFault::OutOfMemory),
            };
        }
    }
    Ok(())
}
