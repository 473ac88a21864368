ghost use Rattle.fx_top.specs.Call.{stream_in};
ghost use Rattle.fx_top.specs.CheckedText.{IsCheckOf};
ghost use Rattle.fx_top.specs.inner.Refusals.{IsDesignFault};
ghost use Rattle.fx_top.specs.inner.Tasks.{IsDone};

use crate::fault::{Done, Fault, of_design};
use cmd_check::{gather, put_check};
use cmd_design::designed_of;
use fx_io::{OutOfMemory, Sink};
use std::alloc::Global;

/// Puts what is worked out of a model by a plan. All memory is taken before the first line.
pub fn check<K: Sink>(alloc: Global, model: &[u8], plan: &[u8], out: &mut K) -> Done
    ensures { IsDone (IsCheckOf model.now plan.now) (IsDesignFault model.now plan.now)
        (stream_in K.taken K.faults out.old out.new) result }
{
    let designed = match designed_of(alloc, model, plan) {
        Ok(designed) => designed,
        Err(fault) => return Err(of_design(fault)),
    };
    match gather(alloc, &designed.checked, &designed.planned) {
        Ok(gathered) => {
            let put = put_check(out, &designed.checked, &designed.planned, gathered);
            designed.discard();
            Ok(put)
        }
        Err(OutOfMemory) => {
            designed.discard();
            Err(Fault::OutOfMemory)
        }
    }
}
