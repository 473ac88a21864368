ghost use Rattle.std.specs.Prelude.{◌≡◌, ◌<◌, IfErr, IfOk, OnOk, length};
ghost use Rattle.dg_model.specs.declared.fault.Shown.TheVariants.{Cycle};
ghost use Rattle.dg_model.specs.declared.rule.Rule.{Rule};
ghost use Rattle.dg_model.specs.Attributes.{attributes_of};
ghost use Rattle.dg_model.specs.Faults.{IsRefusal, fault_of, path_of};
ghost use Rattle.dg_model.specs.Loop.{BreaksLoop, IsOrder, KeepsLoop};
ghost use Rattle.dg_model.specs.Periods.{periods_of};
ghost use Rattle.dg_model.specs.Wired.{IsWired};

use crate::cycle::cycle_from;
use crate::rows::rows_of;
use crate::search::search_all;
use dg_model::{CheckFault, Diagram, Rule, RuleFault, Shown};
use fx_io::{OutOfMemory, Sizes};
use std::alloc::Global;

/// The fault that tells a cycle begun with its first block.
fn loop_fault(
    alloc: Global,
    diagram: &Diagram,
    first: u32,
    blocks: Sizes,
) -> Result<RuleFault, OutOfMemory>
    requires { first < length diagram.now.blocks }
    ensures { IfOk result (λ fault. fault
        ≡ fault_of Rule.Loop (path_of diagram.now first) (Cycle blocks)) }
{
    let block = &diagram.blocks.as_slice()[first as usize];
    let place = block.path.text(alloc)?;
    Ok(RuleFault {
        rule: Rule::Loop,
        place,
        shown: Shown::Cycle { blocks },
    })
}

/// Every block of a wired diagram once, each after those from which an instant edge leads to it; or
/// the rule of loops is broken, with a cycle that begins with the least block that lies on any. Its
/// time is linear in the blocks and edges (Simulink reference, algebraic loops; which cycle is
/// shown is own).
pub fn order(alloc: Global, diagram: &Diagram, periods: &[Option<u32>]) -> Result<Sizes, CheckFault>
    requires wired { IsWired diagram.now }
    requires periods { periods.now ≡ periods_of diagram.now }
    ensures order { IfOk result (λ order. IsOrder diagram.now (attributes_of diagram.now) order) }
    ensures kept { OnOk result (KeepsLoop diagram.now (attributes_of diagram.now)) }
    ensures broken { IfErr result (IsRefusal (BreaksLoop diagram.now (attributes_of diagram.now))) }
{
    let rows = rows_of(alloc, diagram, periods)?;
    let found = search_all(alloc, rows.as_slice())?;
    match found.first {
        None => Ok(Sizes::from_vec(found.order)),
        Some(first) => {
            let blocks = cycle_from(alloc, rows.as_slice(), first)?;
            let fault = loop_fault(alloc, diagram, first, blocks)?;
            Err(CheckFault::Broken(fault))
        }
    }
}
