ghost use Rattle.std.specs.Prelude.{◌≡◌, IfErr, IfOk};
ghost use Rattle.fx_top.specs.Call.{files_in, stream_in};
ghost use Rattle.fx_top.specs.Flattened.{HasFlatCause, HasFlatWritten, IsFlatModuleOf, IsUnflattened};
ghost use Rattle.fx_top.specs.inner.Flattening.{IsFlatDone, flat_answer};

use crate::answer::Answer;
use crate::fetch::fetch_file;
use crate::parts::put_parts;
use fx_io::{OpenGate, OutOfMemory, PutFault, Shelf, Sink};
use std::alloc::Global;
use std::thread::Threads;
use vl_ast::Module;
use vl_hier::HierFault;

/// How the flattening of a text ended: its text was put, whole or in part, or there is none.
type FlatDone = Result<Result<(), PutFault>, HierFault>;

/// The flat module of the design of a Verilog text.
fn flat_of(alloc: Global, verilog: &[u8]) -> Result<Module, HierFault>
    ensures made { IfOk result (IsFlatModuleOf verilog.now) }
    ensures refused { IfErr result (IsUnflattened verilog.now) }
{
    let design = match vl_hier::read(alloc, verilog) {
        Ok(design) => design,
        Err(fault) => return Err(fault),
    };
    let made = vl_hier::flat(alloc, &design);
    drop(design);
    made
}

/// Puts the text of the flat module of the design of a Verilog text.
fn put_flat<R: Threads + Sync, K: Sink>(
    rt: &R,
    alloc: Global,
    verilog: &[u8],
    out: &mut K,
) -> FlatDone
    ensures { IsFlatDone verilog.now (stream_in K.taken K.faults out.old out.new) result }
{
    let made = match flat_of(alloc, verilog) {
        Ok(made) => made,
        Err(fault) => return Err(fault),
    };
    let parts = vl_write::spelling_parts(rt, alloc, &made, &OpenGate);
    drop(made);
    match parts {
        Ok(parts) => {
            let put = put_parts(out, parts.as_slice());
            drop(parts);
            Ok(put)
        }
        Err(OutOfMemory) => Err(HierFault::OutOfMemory),
    }
}

/// The answer to how the flattening of the file of this name ended.
fn answer_to<'a>(file: &'a str, done: FlatDone) -> Answer<'a>
    ensures { result ≡ flat_answer file.entry done }
{
    match done {
        Ok(Ok(())) => Answer::Done,
        Ok(Err(_)) => Answer::CannotWrite,
        Err(HierFault::Syntax { line }) => Answer::NotVerilog { file, line },
        Err(HierFault::Link { name }) => Answer::BadInstance { file, name },
        Err(HierFault::OutOfMemory) => Answer::OutOfMemory,
    }
}

/// Writes the text of the flat module of the design in a file.
pub fn flatten<'a, R: Threads + Sync, S: Shelf, K: Sink>(
    rt: &R,
    alloc: Global,
    file: &'a str,
    shelf: &mut S,
    out: &mut K,
) -> Answer<'a>
    ensures cause { HasFlatCause (files_in S.held S.steady S.faults S.overlong shelf.old shelf.new)
        file.now result }
    ensures written { HasFlatWritten
        (files_in S.held S.steady S.faults S.overlong shelf.old shelf.new) file.now
        (stream_in K.taken K.faults out.old out.new) result }
{
    let verilog = match fetch_file(alloc, file, shelf) {
        Ok(verilog) => verilog,
        Err(answer) => return answer,
    };
    let done = put_flat(rt, alloc, verilog.bytes(), out);
    drop(verilog);
    answer_to(file, done)
}
