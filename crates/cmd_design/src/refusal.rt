ghost use Rattle.std.specs.Prelude.{IfErr, IfOk};
ghost use Rattle.cmd_design.specs.Refused.{IsRefusedModel};
ghost use Rattle.cmd_design.specs.inner.FaultTexts.{IsTold};
ghost use Rattle.cmd_model.specs.Model.{IsModelOf};

use cmd_model::{ModelFault, accept, rule_text};
use dg_model::{Checked, discard};
use fx_io::{OutOfMemory, Text};
use std::alloc::Global;

/// Why a model has no checked diagram (own).
#[derive(Drop)]
pub enum ModelRefusal {
    /// Its bytes are no MDL text; they stop being the beginning of one at this line, from 1.
    NotMdl { line: u64 },
    /// It breaks a rule, which this line tells.
    BreaksRule { line: Text },
    /// Memory is wanting.
    OutOfMemory,
}

/// The checked diagram of a model's bytes.
///
/// # Errors
/// `NotMdl` where the bytes stand for no tree, `BreaksRule` where they break one of the rules of models,
/// which are tried in their order, or want of memory.
pub fn checked_of(alloc: Global, model: &[u8]) -> Result<Checked, ModelRefusal>
    ensures made { IfOk result (λ checked. IsModelOf model.now checked.diagram) }
    ensures refused { IfErr result (IsRefusedModel model.now) }
{
    match accept(alloc, model) {
        Ok(checked) => Ok(checked),
        Err(fault) => Err(refusal_of(alloc, fault)),
    }
}

/// The fault of a model, with the line of a broken rule.
fn refusal_of(alloc: Global, fault: ModelFault) -> ModelRefusal
    ensures { IsTold fault result }
{
    match fault {
        ModelFault::NotMdl { line } => ModelRefusal::NotMdl { line },
        ModelFault::Broken { fault, blocks } => {
            let line = rule_text(alloc, &fault, blocks.as_slice());
            fault.discard();
            discard(blocks);
            match line {
                Ok(line) => ModelRefusal::BreaksRule { line },
                Err(OutOfMemory) => ModelRefusal::OutOfMemory,
            }
        }
        ModelFault::OutOfMemory => ModelRefusal::OutOfMemory,
    }
}
