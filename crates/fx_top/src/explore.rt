ghost use Rattle.std.specs.Prelude.{IfErr, IfOk};
ghost use Rattle.fx_top.specs.Call.{stream_in};
ghost use Rattle.fx_top.specs.Explored.{IsExplorationOf};
ghost use Rattle.fx_top.specs.inner.Refusals.{IsModelFault};
ghost use Rattle.fx_top.specs.inner.Tasks.{IsDone};
ghost use Rattle.cmd_design.specs.Refused.{IsRefusedModel};
ghost use Rattle.hw_explore.specs.Range.{IsRange};

use crate::fault::{Done, of_model};
use crate::parts::put_text;
use cmd_design::{ModelRefusal, checked_of};
use cmd_explore::findings_text;
use fx_io::{OpenGate, OutOfMemory, Sink, Text};
use hw_explore::Range;
use std::alloc::Global;
use std::thread::Threads;

/// The text of what each plan of a range is worth on a model.
fn exploration_of<R: Threads + Sync>(
    rt: &R,
    alloc: Global,
    model: &[u8],
    range: Range,
) -> Result<Text, ModelRefusal>
    requires { IsRange range }
    ensures made { IfOk result (IsExplorationOf model.now range) }
    ensures refused { IfErr result (IsRefusedModel model.now) }
{
    let checked = match checked_of(alloc, model) {
        Ok(checked) => checked,
        Err(fault) => return Err(fault),
    };
    let findings = match hw_explore::explore(rt, alloc, &checked, range, &OpenGate) {
        Ok(findings) => findings,
        Err(OutOfMemory) => {
            checked.discard();
            return Err(ModelRefusal::OutOfMemory);
        }
    };
    let text = findings_text(alloc, &findings, checked.diagram().blocks.as_slice());
    findings.discard();
    checked.discard();
    match text {
        Ok(text) => Ok(text),
        Err(OutOfMemory) => Err(ModelRefusal::OutOfMemory),
    }
}

/// Puts what each plan of a range is worth on a model, and which is the least.
pub fn explore<R: Threads + Sync, K: Sink>(
    rt: &R,
    alloc: Global,
    model: &[u8],
    range: Range,
    out: &mut K,
) -> Done
    requires { IsRange range }
    ensures { IsDone (IsExplorationOf model.now range) (IsModelFault model.now)
        (stream_in K.taken K.faults out.old out.new) result }
{
    match exploration_of(rt, alloc, model, range) {
        Ok(text) => Ok(put_text(out, text)),
        Err(fault) => Err(of_model(fault)),
    }
}
