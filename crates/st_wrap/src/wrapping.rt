//! The module with valid and ready round a core.
ghost use Rattle.std.specs.Prelude.{◌≡◌, List, ℕ, true, IfOk, length};
ghost use Rattle.vl_ast.specs.Listing.{Holds};
ghost use Rattle.st_wrap.specs.Promised.{AreColumnNames, BreaksNone, CarriesTransfers, FollowsCore, HasStreamHeader, KeepsBits, ShakesHands, Spells, is_stallable, multiplications, spelling};
ghost use Rattle.st_wrap.specs.inner.Wrapper.{items_of, IsWrapped};

use crate::columns::{Column, columns};
use crate::control;
use crate::header::ports_of;
use crate::pace::{Counters, counters_for, latest_in};
use crate::registers::{Part, put_parts};
use crate::renaming::{put_core, put_wires};
use fx_io::{OutOfMemory, Text};
use std::alloc::Global;
use vl_ast::{
    Listing, ModItem, Module, begin, counted_rows_run, one_run, sound_modules_spell, whole_module,
};

/// The module `fx_stream` with valid and ready round a core. It takes a sample of all inputs where
/// `in_valid` and `in_ready` are 1, and hands over a sample of all outputs where `out_valid` and
/// `out_ready` are 1. `names` has a name for each port of the core that carries numbers, the inputs
/// first. The core has no registers that change without `clk_enable` or `reset`.
///
/// # Errors
/// Want of memory.
pub fn wrap(alloc: Global, core: &Module, names: &[Text]) -> Result<Module, OutOfMemory>
    requires sound { BreaksNone core.now }
    requires stallable { is_stallable core.now ≡ true }
    requires keeps { KeepsBits core.now }
    requires names { AreColumnNames core.now names.now }
    ensures header { IfOk result (HasStreamHeader core.now names.now) }
    ensures conditions { IfOk result BreaksNone }
    ensures products { IfOk result (λ made.
        length (multiplications made) ≡ length (multiplications core.now)) }
    ensures spelled { IfOk result (λ made.
        (bytes : List ℕ) → Spells bytes core.now → Spells (spelling made) made) }
    ensures handshake { IfOk result (ShakesHands core.now) }
    ensures transfers { IfOk result (CarriesTransfers core.now names.now) }
    ensures follows { IfOk result (FollowsCore core.now names.now) }
{
    one_run();
    counted_rows_run();
    sound_modules_spell();
    module_of(alloc, core, names)
}

/// What `wrap` gives. It asks nothing.
fn module_of(alloc: Global, core: &Module, names: &[Text]) -> Result<Module, OutOfMemory>
    ensures { IfOk result (IsWrapped core.now names.now) }
{
    let inputs = columns(alloc, core, true, 0, names)?;
    let ins = inputs.as_slice();
    let others = &names[ins.len()..];
    let outputs = columns(alloc, core, false, latest_in(core), others)?;
    let outs = outputs.as_slice();
    let counters = counters_for(core);
    let ports = ports_of(alloc, ins, outs);
    let items = items_of(alloc, core, counters, ins, outs);
    whole_module(alloc, b"fx_stream", 1, ports, items)
}

fn items_of(
    alloc: Global,
    core: &Module,
    counters: Counters,
    inputs: &[Column],
    outputs: &[Column],
) -> Listing<ModItem>
    ensures { Holds result (items_of core.now counters inputs.now outputs.now) }
{
    let mut out = begin(alloc);
    put_wires(alloc, &mut out, core);
    control::declare(alloc, &mut out, counters);
    put_parts(alloc, &mut out, Part::Held, inputs);
    put_parts(alloc, &mut out, Part::Late, outputs);
    put_core(alloc, &mut out, core);
    control::drive(alloc, &mut out, counters);
    put_parts(alloc, &mut out, Part::HeldDriven, inputs);
    put_parts(alloc, &mut out, Part::LateDriven, outputs);
    out
}
