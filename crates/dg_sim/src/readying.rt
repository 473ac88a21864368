//! What is prepared for the cells of a program before its first sample.
ghost use Rattle.std.specs.Prelude.{◌≡◌, ◌≤◌, ◌+◌, ℕ, ℤ, IfOk, length};
ghost use Rattle.dg_model.specs.Attributes.{attributes_of};
ghost use Rattle.dg_model.specs.Operation.{operation_of};
ghost use Rattle.dg_sim.specs.Program.{operation_at, CanGive};
ghost use Rattle.dg_sim.specs.Ready.{IsReadyFor, AreReady};
ghost use Rattle.dg_sim.specs.Sim.{IsProgram};

use crate::program::{Program, Rule, Work};
use dg_blocks::Prepared;
use dg_model::{Checked, OpCall};
use fx_io::OutOfMemory;
use std::alloc::Global;

/// The operation of a work, as a call.
pub fn call_of(program: &Program, work: Work) -> OpCall<'_>
    requires types { work.first + work.count ≤ length program.now.types }
    requires signs { work.first_sign + work.signs ≤ length program.now.signs }
    ensures { operation_of result ≡ operation_at program.now work }
{
    let (first, count) = (work.first as usize, work.count as usize);
    let (first_sign, signs) = (work.first_sign as usize, work.signs as usize);
    OpCall {
        op: work.op,
        signs: &program.signs.as_slice()[first_sign..first_sign + signs],
        types: &program.types.as_slice()[first..first + count],
        result: work.result,
        rounding: work.rounding,
        saturate: work.saturate,
    }
}

/// What is prepared for a rule.
fn ready_for(program: &Program, rule: Rule) -> Prepared
    requires { (look : ℕ → ℤ) × CanGive program.now look rule }
    ensures { IsReadyFor program.now result rule }
{
    match rule {
        Rule::Works { work } => Prepared::new(&call_of(program, work)),
        Rule::Input { .. }
        | Rule::Fixed { .. }
        | Rule::Same { .. }
        | Rule::Above { .. }
        | Rule::Past { .. }
        | Rule::Slower { .. }
        | Rule::Held { .. }
        | Rule::Reset { .. } => Prepared::Wide,
    }
}

/// What is prepared for each cell.
pub fn prepare(
    alloc: Global,
    checked: &Checked,
    program: &Program,
) -> Result<Vec<Prepared>, OutOfMemory>
    requires { IsProgram checked.now.diagram (attributes_of checked.now.diagram) program.now }
    ensures { IfOk result (λ prepared.
        AreReady program.now prepared.items (length program.now.cells)) }
{
    let _order = checked.order();
    let mut prepared = Vec::new(alloc);
    for cell in program.cells.as_slice() {
        prepared.push(ready_for(program, cell.rule))?;
    }
    Ok(prepared)
}
