ghost use Rattle.std.specs.Prelude.{◌≡◌, ℕ, ℤ, IfErr, IfOk, List, OnErr, OnOk, is_some, length};
ghost use Rattle.fx_io.specs.Cause.{Rose};
ghost use Rattle.fx_io.specs.Sink.{TookProperPrefix, also_took};
ghost use Rattle.cmd_replay.specs.Replayed.{condition_of};
ghost use Rattle.cmd_replay.specs.Responding.{IsRefusedReplay, IsResponseTo, IsTableOf};
ghost use Rattle.cmd_replay.specs.inner.Machines.{CanRespond, IsMachineOf, IsResponseOf};
ghost use Rattle.fx_tables.specs.Response.{response};
ghost use Rattle.fx_tables.specs.RowText.{periods_of};
ghost use Rattle.vl_ast.specs.Driven.{output_ports};
ghost use Rattle.vl_ast.specs.Windows.{Sample};
ghost use Rattle.vl_replay.specs.Replays.{StandsBefore, module_of, stimulus_of};

use fx_io::{OutOfMemory, PutFault, Sink, Text, put_all};
use fx_tables::{Column, RowText, Rows, TableCause, TableFault, read_rows};
use std::alloc::Global;
use vl_check::VlFault;
use vl_eval::Machine;
use vl_read::VlSyntax;
use vl_replay::{PortColumns, Replay, columns, some_response};

/// Why a Verilog text and a stimulus have no response (own).
#[derive(Drop)]
pub enum ReplayFault {
    /// The Verilog text is not in the subset; it stops being the beginning of one at this line, from 1.
    NotVerilog { line: u64 },
    /// The module of the Verilog text breaks this condition first.
    Broken { fault: VlFault },
    /// The stimulus has its first bad line there, from 1.
    BadTable { line: u64, cause: TableCause },
    /// Memory is wanting.
    OutOfMemory,
}

/// A replay that stands before its first sample, and the writer of its lines.
#[derive(Drop)]
pub struct Response {
    /// How many base samples the stimulus has.
    pub samples: u64,
    /// The module under the stimulus, one sample at a time.
    pub replay: Replay,
    /// The writer of a sample's line.
    pub text: RowText,
}

impl Response {
    /// Frees the replay and the writer.
    fn discard(self) {
        let Response {
            samples: _,
            replay,
            text,
        } = self;
        replay.discard();
        text.discard();
    }
}

/// The machine of a Verilog text.
fn machine_of(alloc: Global, verilog: &[u8]) -> Result<Machine, ReplayFault>
    ensures made { IfOk result (IsMachineOf verilog.now) }
    ensures refused { (stimulus : List ℕ) → IfErr result (IsRefusedReplay verilog.now stimulus) }
{
    let made = match vl_read::read(alloc, verilog) {
        Ok(made) => made,
        Err(VlSyntax::Syntax { line }) => return Err(ReplayFault::NotVerilog { line }),
        Err(VlSyntax::OutOfMemory) => return Err(ReplayFault::OutOfMemory),
    };
    match Machine::new(alloc, made) {
        Ok(machine) => Ok(machine),
        Err(fault) => {
            if is_condition(&fault) {
                Err(ReplayFault::Broken { fault })
            } else {
                drop(fault);
                // allocation: one of the machine's, which is its only other fault
                Err(ReplayFault::OutOfMemory)
            }
        }
    }
}

/// Whether the fault is a broken condition, and not want of memory.
fn is_condition(fault: &VlFault) -> bool
    ensures { result ≡ is_some (condition_of fault.now) }
{
    !matches!(fault, VlFault::OutOfMemory)
}

/// The response of a Verilog text to a stimulus, before its first sample.
///
/// # Errors
/// The first line at which the text isn't one of the subset; or the first condition that its module
/// breaks; or the first bad line of the stimulus, by the columns of the module's ports (`FORMATS.md`).
/// Or want of memory.
pub fn response_of(alloc: Global, verilog: &[u8], stimulus: &[u8]) -> Result<Response, ReplayFault>
    ensures made { IfOk result (IsResponseTo verilog.now stimulus.now) }
    ensures refused { IfErr result (IsRefusedReplay verilog.now stimulus.now) }
{
    let machine = match machine_of(alloc, verilog) {
        Ok(machine) => machine,
        Err(fault) => return Err(fault),
    };
    let PortColumns { inputs, outputs } = match columns(alloc, &machine) {
        Ok(columns) => columns,
        Err(OutOfMemory) => {
            machine.discard();
            return Err(ReplayFault::OutOfMemory);
        }
    };
    let count = outputs.as_slice().len() as u64;
    let rows = match read_rows(alloc, stimulus, inputs.as_slice(), count) {
        Ok(rows) => rows,
        Err(TableFault::Bad { line, cause }) => {
            machine.discard();
            return Err(ReplayFault::BadTable { line, cause });
        }
        Err(TableFault::OutOfMemory) => {
            machine.discard();
            return Err(ReplayFault::OutOfMemory);
        }
    };
    some_response();
    match response_with(alloc, machine, rows, outputs.as_slice()) {
        Ok(response) => Ok(response),
        Err(OutOfMemory) => Err(ReplayFault::OutOfMemory),
    }
}

/// The response of a machine to the rows of its stimulus, before its first sample.
fn response_with(
    alloc: Global,
    machine: Machine,
    rows: Rows,
    outputs: &[Column],
) -> Result<Response, OutOfMemory>
    requires { CanRespond machine rows outputs.now }
    ensures { IfOk result (IsResponseOf machine rows outputs.now) }
{
    let text = match RowText::new(alloc, outputs) {
        Ok(text) => text,
        Err(OutOfMemory) => {
            rows.discard();
            machine.discard();
            return Err(OutOfMemory);
        }
    };
    let samples = rows.count();
    match Replay::new(alloc, machine, rows) {
        Ok(replay) => Ok(Response {
            samples,
            replay,
            text,
        }),
        Err(OutOfMemory) => {
            text.discard();
            Err(OutOfMemory)
        }
    }
}

/// Puts the lines of a response, each by itself and as soon as its numbers are there. It takes no
/// memory.
pub fn put_response<K: Sink>(mut ready: Response, out: &mut K) -> Result<(), PutFault>
    requires stands { StandsBefore ready.replay 0 }
    requires samples { ready.samples ≡ (stimulus_of ready.replay).lines }
    requires wide { length (output_ports (module_of ready.replay))
        ≡ length (periods_of ready.text) }
    ensures whole { (table : Sample → List ℤ) → IsTableOf ready.replay table
        → OnOk result (K.taken out.new
        ≡ also_took (K.taken out.old) (response (periods_of ready.text) table ready.samples)) }
    ensures cut { (table : Sample → List ℤ) → IsTableOf ready.replay table
        → OnErr result (TookProperPrefix (K.taken out.old) (K.taken out.new)
        (response (periods_of ready.text) table ready.samples)) }
    ensures cause { OnErr result (Rose (K.faults out.old) (K.faults out.new)) }
{
    let put = put_lines(&mut ready.replay, &mut ready.text, ready.samples, out);
    ready.discard();
    put
}

/// The lines of a response, one after another.
pub fn response_text(alloc: Global, mut ready: Response) -> Result<Text, OutOfMemory>
    requires stands { StandsBefore ready.replay 0 }
    requires samples { ready.samples ≡ (stimulus_of ready.replay).lines }
    requires wide { length (output_ports (module_of ready.replay))
        ≡ length (periods_of ready.text) }
    ensures { (table : Sample → List ℤ) → IsTableOf ready.replay table → IfOk result (λ lines. lines
        ≡ response (periods_of ready.text) table ready.samples) }
{
    let lines = lines_of(alloc, &mut ready.replay, &mut ready.text, ready.samples);
    ready.discard();
    lines
}

/// Puts the lines of so many samples, each by itself and as soon as its numbers are there. It takes
/// no memory.
fn put_lines<K: Sink>(
    replay: &mut Replay,
    text: &mut RowText,
    samples: u64,
    out: &mut K,
) -> Result<(), PutFault>
    requires stands { StandsBefore replay.old 0 }
    requires samples { samples ≡ (stimulus_of replay.old).lines }
    requires wide { length (output_ports (module_of replay.old)) ≡ length (periods_of text.old) }
    ensures whole { (table : Sample → List ℤ) → IsTableOf replay.old table
        → OnOk result (K.taken out.new
        ≡ also_took (K.taken out.old) (response (periods_of text.old) table samples)) }
    ensures cut { (table : Sample → List ℤ) → IsTableOf replay.old table
        → OnErr result (TookProperPrefix (K.taken out.old) (K.taken out.new)
        (response (periods_of text.old) table samples)) }
    ensures cause { OnErr result (Rose (K.faults out.old) (K.faults out.new)) }
{
    for sample in 0..samples {
        replay.advance(sample);
        if let Err(fault) = put_all(out, text.line(sample, replay.row(sample))) {
            return Err(fault);
        }
    }
    Ok(())
}

/// The lines of so many samples, one after another.
fn lines_of(
    alloc: Global,
    replay: &mut Replay,
    text: &mut RowText,
    samples: u64,
) -> Result<Text, OutOfMemory>
    requires stands { StandsBefore replay.old 0 }
    requires samples { samples ≡ (stimulus_of replay.old).lines }
    requires wide { length (output_ports (module_of replay.old)) ≡ length (periods_of text.old) }
    ensures { (table : Sample → List ℤ) → IsTableOf replay.old table → IfOk result (λ lines. lines
        ≡ response (periods_of text.old) table samples) }
{
    let mut lines = Vec::new(alloc);
    for sample in 0..samples {
        replay.advance(sample);
        lines.extend_from_slice(text.line(sample, replay.row(sample)))?;
    }
    Text::from_vec(alloc, lines)
}
