//! Why the texts of a command's files have no output, and the answer to how a task ended.
ghost use Rattle.std.specs.Prelude.{◌≡◌, ℕ, List};
ghost use Rattle.dg_model.specs.declared.diagram.Diagram.{Diagram};
ghost use Rattle.cmd_design.specs.Refused.{IsRefusedDesign, IsRefusedModel};
ghost use Rattle.cmd_generate.specs.Streaming.{IsRefusedStream};
ghost use Rattle.cmd_model.specs.Model.{IsModelOf};
ghost use Rattle.cmd_replay.specs.Responding.{IsRefusedReplay};
ghost use Rattle.cmd_simulate.specs.Simulating.{IsStimulusFault};
ghost use Rattle.fx_top.specs.inner.Refusals.{IsDesignFault, IsModelFault, IsReplayFault, IsSimulationFault, IsStreamFault, answer_to};

use crate::answer::Answer;
use cmd_design::{DesignFault, ModelRefusal};
use cmd_replay::ReplayFault;
use fx_io::{PutFault, Text};
use fx_tables::{TableCause, TableFault};
use vl_check::VlFault;

/// Why the texts of a command's files have no output.
#[derive(Drop)]
pub enum Fault {
    /// The model's bytes are no MDL text; they stop being the beginning of one at this line, from 1.
    NotMdl { line: u64 },
    /// The model, the plan on its diagram or the diagram's ports break a rule, which this line tells.
    BreaksRule { line: Text },
    /// The Verilog text is not in the subset; it stops being the beginning of one at this line, from 1.
    NotVerilog { line: u64 },
    /// The module of the Verilog text breaks this condition first.
    Broken { fault: VlFault },
    /// The stimulus or the plan has its first bad line there, from 1.
    BadTable { line: u64, cause: TableCause },
    /// Memory is wanting.
    OutOfMemory,
}

/// How a task ended: its text was put, whole or in part, or there is none.
pub type Done = Result<Result<(), PutFault>, Fault>;

/// The fault of a model that is refused so.
pub fn of_model(refusal: ModelRefusal) -> Fault
    ensures model { (model : List ℕ) → IsRefusedModel model refusal → IsModelFault model result }
    ensures simulation { (model stimulus : List ℕ) → IsRefusedModel model refusal
        → IsSimulationFault model stimulus result }
{
    match refusal {
        ModelRefusal::NotMdl { line } => Fault::NotMdl { line },
        ModelRefusal::BreaksRule { line } => Fault::BreaksRule { line },
        ModelRefusal::OutOfMemory => Fault::OutOfMemory,
    }
}

/// The fault of a model and a plan that make no design.
pub fn of_design(fault: DesignFault) -> Fault
    ensures design { (model plan : List ℕ) → IsRefusedDesign model plan fault
        → IsDesignFault model plan result }
    ensures stream { (model plan : List ℕ) → IsRefusedStream model plan fault
        → IsStreamFault model plan result }
{
    match fault {
        DesignFault::NotMdl { line } => Fault::NotMdl { line },
        DesignFault::BreaksRule { line } => Fault::BreaksRule { line },
        DesignFault::BadPlan { line, cause } => Fault::BadTable { line, cause },
        DesignFault::OutOfMemory => Fault::OutOfMemory,
    }
}

/// The fault of a stimulus that doesn't fit a model's diagram.
pub fn of_stimulus(fault: TableFault) -> Fault
    ensures { (model stimulus : List ℕ) (diagram : Diagram) → IsModelOf model diagram
        → IsStimulusFault diagram stimulus fault → IsSimulationFault model stimulus result }
{
    match fault {
        TableFault::Bad { line, cause } => Fault::BadTable { line, cause },
        TableFault::OutOfMemory => Fault::OutOfMemory,
    }
}

/// The fault of a Verilog text and a stimulus that have no response.
pub fn of_replay(fault: ReplayFault) -> Fault
    ensures { (verilog stimulus : List ℕ) → IsRefusedReplay verilog stimulus fault
        → IsReplayFault verilog stimulus result }
{
    match fault {
        ReplayFault::NotVerilog { line } => Fault::NotVerilog { line },
        ReplayFault::Broken { fault } => Fault::Broken { fault },
        ReplayFault::BadTable { line, cause } => Fault::BadTable { line, cause },
        ReplayFault::OutOfMemory => Fault::OutOfMemory,
    }
}

/// The answer to how a task over files of these names ended.
pub fn answer_of<'a>(first: &'a str, second: &'a str, done: Done) -> Answer<'a>
    ensures { result ≡ answer_to first.entry second.entry done }
{
    match done {
        Ok(Ok(())) => Answer::Done,
        Ok(Err(_)) => Answer::CannotWrite,
        Err(Fault::NotMdl { line }) => Answer::NotMdl { file: first, line },
        Err(Fault::BreaksRule { line }) => Answer::BreaksRule { line },
        Err(Fault::NotVerilog { line }) => Answer::NotVerilog { file: first, line },
        Err(Fault::Broken { fault }) => Answer::Broken { file: first, fault },
        Err(Fault::BadTable { line, cause }) => Answer::BadTable {
            file: second,
            line,
            cause,
        },
        Err(Fault::OutOfMemory) => Answer::OutOfMemory,
    }
}
