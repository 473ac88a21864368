ghost use Rattle.std.specs.Prelude.{◌≡◌, [], IfOk, OnErr, OnOk};
ghost use Rattle.cmd_replay.specs.Benched.{IsTold, told_by};
ghost use Rattle.cmd_replay.specs.inner.TextResponse.{IsReplayedAs};

use crate::response::{ReplayFault, response_of, response_text};
use cmd_sample::Bench;
use fx_io::{OutOfMemory, Text};
use std::alloc::Global;

/// The bench of `run`: it reads a Verilog text and replays its module, as `replay` does.
#[derive(Drop)]
pub struct TrueBench {
    told: Text,
}

impl TrueBench {
    ghost use Rattle.cmd_replay.specs.Benched.{told_by};

    /// A bench that tells no bytes.
    pub fn new(_alloc: Global) -> TrueBench
        ensures { told_by result ≡ [] }
    {
        TrueBench { told: Text::new() }
    }
}

impl Bench for TrueBench {
    ghost use Rattle.cmd_replay.specs.Benched.{IsTold, told_by};

    ghost tells = { told_by };

    ghost may_tell = { IsTold };

    /// Replays the module of a Verilog text. Where there is none, or the stimulus has a bad line for
    /// it, it tells no bytes from then on, as it does where memory is wanting.
    fn replay(&mut self, alloc: Global, verilog: &[u8], stimulus: &[u8]) -> Result<(), OutOfMemory>
        ensures told { OnOk result (IsTold verilog.now stimulus.now (told_by self.new)) }

        ensures wanting { OnErr result (told_by self.new ≡ []) }
    {
        self.told = Text::new();
        self.told = told_text(alloc, verilog, stimulus)?;
        Ok(())
    }

    fn told(&self) -> &[u8] {
        self.told.bytes()
    }
}

/// What is told of a Verilog text and a stimulus.
fn told_text(alloc: Global, verilog: &[u8], stimulus: &[u8]) -> Result<Text, OutOfMemory>
    ensures { IfOk result (IsTold verilog.now stimulus.now) }
{
    let replayed = replayed_text(alloc, verilog, stimulus)?;
    match replayed {
        Some(text) => Ok(text),
        None => Ok(Text::new()),
    }
}

/// The response of a Verilog text to a stimulus, where it has one.
fn replayed_text(
    alloc: Global,
    verilog: &[u8],
    stimulus: &[u8],
) -> Result<Option<Text>, OutOfMemory>
    ensures { IfOk result (IsReplayedAs verilog.now stimulus.now) }
{
    vl_read::unique();
    let response = match response_of(alloc, verilog, stimulus) {
        Ok(response) => response,
        Err(ReplayFault::NotVerilog { line: _line }) => return Ok(None),
        Err(ReplayFault::Broken { fault }) => {
            drop(fault);
            return Ok(None);
        }
        Err(
            ReplayFault::BadTable {
                line: _line,
                cause: _cause,
            },
        ) => return Ok(None),
        Err(ReplayFault::OutOfMemory) => return Err(OutOfMemory),
    };
    let lines = response_text(alloc, response)?;
    Ok(Some(lines))
}
