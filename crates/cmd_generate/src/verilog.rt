ghost use Rattle.std.specs.Prelude.{IfOk, flat_map};
ghost use Rattle.cmd_generate.specs.Generating.{IsPlanOn, IsTextOf, IsVerilogModule, IsWrittenOf};
ghost use Rattle.cmd_generate.specs.Streaming.{IsCoreOf};
ghost use Rattle.hw_build.specs.Built.{IsBuiltBy};
ghost use Rattle.vl_ast.specs.Grammar.{Spells};
ghost use Rattle.vl_ast.specs.Spelling.{spelling};

use cmd_design::{DesignFault, designed_of};
use dg_model::Checked;
use fx_io::{OpenGate, OutOfMemory, Text};
use hw_build::build;
use hw_module::module_of;
use hw_net::Netlist;
use hw_rules::Planned;
use hw_sched::SizeFault;
use hw_tidy::tidy;
use std::alloc::Global;
use std::thread::Threads;
use vl_ast::Module;

/// The module of a diagram by a plan with its times.
pub fn made_of(alloc: Global, checked: &Checked, planned: &Planned) -> Result<Module, OutOfMemory>
    requires { IsPlanOn checked.now.diagram planned.now }
    ensures { IfOk result (IsCoreOf checked.now.diagram planned.now.resolved planned.now.times) }
{
    let netlist = match build(
        alloc,
        checked,
        &planned.resolved,
        &planned.times.latencies,
        &planned.times.slots,
    ) {
        Ok(netlist) => netlist,
        Err(SizeFault::Size { .. }) => unreachable!(),
        Err(SizeFault::OutOfMemory) => return Err(OutOfMemory),
    };
    let made = tidied_module(alloc, checked, planned, &netlist);
    netlist.discard();
    made
}

/// The module of a built netlist, whose nets the passes of `hw_tidy` went over.
fn tidied_module(
    alloc: Global,
    checked: &Checked,
    planned: &Planned,
    netlist: &Netlist,
) -> Result<Module, OutOfMemory>
    requires plan { IsPlanOn checked.now.diagram planned.now }
    requires built { IsBuiltBy checked.now.diagram planned.now.resolved planned.now.times.latencies
        planned.now.times.slots netlist.now }
    ensures { IfOk result (IsCoreOf checked.now.diagram planned.now.resolved planned.now.times) }
{
    let tidied = tidy(alloc, netlist)?;
    let made = module_of(
        alloc,
        checked,
        &planned.resolved,
        &planned.times.latencies,
        &planned.times.slots,
        &tidied,
    );
    tidied.discard();
    made
}

/// The Verilog text of a diagram by a plan with its times.
pub fn text_of<R: Threads + Sync>(
    rt: &R,
    alloc: Global,
    checked: &Checked,
    planned: &Planned,
) -> Result<Text, OutOfMemory>
    requires { IsPlanOn checked.now.diagram planned.now }
    ensures { IfOk result (IsWrittenOf checked.now.diagram planned.now.resolved planned.now.times) }
{
    vl_read::unique();
    let made = made_of(alloc, checked, planned)?;
    let text = vl_write::write(rt, alloc, &made, &OpenGate);
    made.discard();
    text
}

/// The text of a module in parts, to be put one after another.
pub fn parts_of<R: Threads + Sync>(
    rt: &R,
    alloc: Global,
    made: Module,
) -> Result<Vec<Vec<u8>>, OutOfMemory>
    requires { Spells (spelling made) made }
    ensures { IfOk result (λ parts. IsTextOf made
        (flat_map (λ part. part.items) parts.items)) }
{
    vl_read::unique();
    let parts = vl_write::spelling_parts(rt, alloc, &made, &OpenGate);
    made.discard();
    parts
}

/// The module of the bytes of a model and of a plan; no bytes are the empty plan.
///
/// # Errors
/// Those of `designed_of`. Or want of memory.
pub fn verilog_of(alloc: Global, model: &[u8], plan: &[u8]) -> Result<Module, DesignFault>
    ensures { IsVerilogModule model.now plan.now result }
{
    let designed = match designed_of(alloc, model, plan) {
        Ok(designed) => designed,
        Err(fault) => return Err(fault),
    };
    let made = made_of(alloc, &designed.checked, &designed.planned);
    designed.discard();
    match made {
        Ok(made) => Ok(made),
        Err(OutOfMemory) => Err(DesignFault::OutOfMemory),
    }
}
