ghost use Rattle.std.specs.Prelude.{◌≡◌, ℕ, IfOk, List, OnErr, OnOk, flat_map};
ghost use Rattle.fx_io.specs.Cause.{Rose};
ghost use Rattle.fx_io.specs.Sink.{TookProperPrefix, also_took};
ghost use Rattle.fx_top.specs.Call.{stream_in};
ghost use Rattle.cmd_generate.specs.Generated.{IsVerilogOf};
ghost use Rattle.cmd_generate.specs.Streamed.{IsStreamedOf};
ghost use Rattle.cmd_generate.specs.Generating.{IsVerilogModule};
ghost use Rattle.fx_top.specs.inner.Refusals.{IsDesignFault, IsStreamFault};
ghost use Rattle.cmd_generate.specs.Streaming.{IsStreamModule};
ghost use Rattle.fx_top.specs.inner.Tasks.{IsDone};
ghost use Rattle.vl_ast.specs.Grammar.{Spells};
ghost use Rattle.vl_ast.specs.Spelling.{spelling};

use crate::fault::{Done, Fault, of_design};
use cmd_design::DesignFault;
use cmd_generate::parts_of;
use fx_io::{OutOfMemory, PutFault, Sink, Text, put_all};
use std::alloc::Global;
use std::thread::Threads;
use vl_ast::Module;

/// Puts the parts of a text, one after another, up to a failure.
pub fn put_parts<K: Sink>(out: &mut K, parts: &[Vec<u8>]) -> Result<(), PutFault>
    ensures whole { OnOk result (K.taken out.new
        ≡ also_took (K.taken out.old) (flat_map (λ part. part.items) parts.now)) }
    ensures cut { OnErr result (TookProperPrefix (K.taken out.old) (K.taken out.new)
        (flat_map (λ part. part.items) parts.now)) }
    ensures cause { OnErr result (Rose (K.faults out.old) (K.faults out.new)) }
{
    for part in parts {
        if let Err(fault) = put_all(out, part.as_slice()) {
            return Err(fault);
        }
    }
    Ok(())
}

/// Puts a text, up to a failure.
pub fn put_text<K: Sink>(out: &mut K, text: Text) -> Result<(), PutFault>
    ensures whole { OnOk result (K.taken out.new ≡ also_took (K.taken out.old) text) }
    ensures cut { OnErr result (TookProperPrefix (K.taken out.old) (K.taken out.new) text) }
    ensures cause { OnErr result (Rose (K.faults out.old) (K.faults out.new)) }
{
    let put = put_all(out, text.bytes());
    drop(text);
    put
}

/// Puts the text of the module of a design, where it has one.
pub fn put_design<R: Threads + Sync, K: Sink>(
    rt: &R,
    alloc: Global,
    made: Result<Module, DesignFault>,
    out: &mut K,
) -> Done
    requires spelled { IfOk made (λ made. Spells (spelling made) made) }
    ensures plain { (model plan : List ℕ)
        → IsVerilogModule model plan made
        → IsDone (IsVerilogOf model plan) (IsDesignFault model plan)
        (stream_in K.taken K.faults out.old out.new) result }
    ensures streams { (model plan : List ℕ)
        → IsStreamModule model plan made
        → IsDone (IsStreamedOf model plan) (IsStreamFault model plan)
        (stream_in K.taken K.faults out.old out.new) result }
{
    let made = match made {
        Ok(made) => made,
        Err(fault) => return Err(of_design(fault)),
    };
    match parts_of(rt, alloc, made) {
        Ok(parts) => {
            let put = put_parts(out, parts.as_slice());
            drop(parts);
            Ok(put)
        }
        Err(OutOfMemory) => Err(Fault::OutOfMemory),
    }
}
