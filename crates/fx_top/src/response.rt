//! The responses of a model's diagram and of a Verilog text to a stimulus.
ghost use Rattle.cmd_replay.specs.Replayed.{IsReplayOf};
ghost use Rattle.fx_top.specs.Call.{stream_in};
ghost use Rattle.fx_top.specs.Simulated.{IsSimulationOf};
ghost use Rattle.fx_top.specs.inner.Refusals.{IsReplayFault, IsSimulationFault};
ghost use Rattle.fx_top.specs.inner.Tasks.{IsDone};

use crate::fault::{Done, of_model, of_replay, of_stimulus};
use cmd_design::checked_of;
use cmd_replay::response_of;
use cmd_simulate::simulation_in;
use fx_io::Sink;
use std::alloc::Global;

/// Puts the response of a model's diagram to a stimulus, a line per sample. All memory is taken before
/// the first line.
pub fn simulate<K: Sink>(alloc: Global, model: &[u8], stimulus: &[u8], out: &mut K) -> Done
    ensures { IsDone (IsSimulationOf model.now stimulus.now)
        (IsSimulationFault model.now stimulus.now)
        (stream_in K.taken K.faults out.old out.new) result }
{
    let checked = match checked_of(alloc, model) {
        Ok(checked) => checked,
        Err(refusal) => return Err(of_model(refusal)),
    };
    match simulation_in(alloc, &checked, stimulus) {
        Ok(simulation) => {
            let put = cmd_simulate::put_response(&checked, simulation, out);
            checked.discard();
            Ok(put)
        }
        Err(fault) => {
            checked.discard();
            Err(of_stimulus(fault))
        }
    }
}

/// Puts what the module of a Verilog text shows under a stimulus, a line per sample. All memory is
/// taken before the first line.
pub fn replay<K: Sink>(alloc: Global, verilog: &[u8], stimulus: &[u8], out: &mut K) -> Done
    ensures { IsDone (IsReplayOf verilog.now stimulus.now) (IsReplayFault verilog.now stimulus.now)
        (stream_in K.taken K.faults out.old out.new) result }
{
    match response_of(alloc, verilog, stimulus) {
        Ok(response) => Ok(cmd_replay::put_response(response, out)),
        Err(fault) => Err(of_replay(fault)),
    }
}
