//! The module with valid and ready of a model under a plan.
ghost use Rattle.std.specs.Prelude.{IfOk};
ghost use Rattle.dg_model.specs.Faults.{AllKeep};
ghost use Rattle.cmd_generate.specs.Streamed.{IsStreamOf, KeepsStream};
ghost use Rattle.cmd_generate.specs.Generating.{IsPlanOn};
ghost use Rattle.cmd_generate.specs.Streaming.{IsRefusedOnPorts, IsStreamModule};
ghost use Rattle.hw_rules.specs.Times.{timing_in};
ghost use Rattle.vl_ast.specs.Grammar.{Spells};
ghost use Rattle.vl_ast.specs.Spelling.{spelling};

use crate::steady::check_ports;
use crate::verilog::made_of;
use cmd_design::{DesignFault, designed_of};
use cmd_model::rule_text;
use dg_model::{CheckFault, Checked, root_elements_are_listed};
use fx_io::OutOfMemory;
use hw_build::slots_are_scheduled;
use hw_names::{discard, stream_names};
use hw_rules::Planned;
use hw_sched::ready_fits;
use st_wrap::wrap;
use std::alloc::Global;
use vl_ast::Module;

/// The module with valid and ready round it.
fn stream_of(alloc: Global, checked: &Checked, planned: &Planned) -> Result<Module, OutOfMemory>
    requires on { IsPlanOn checked.now.diagram planned.now }
    requires steady { AllKeep checked.now.diagram (KeepsStream checked.now.diagram) }
    ensures streams { IfOk result (λ made. IsStreamOf made checked.now.diagram planned.now.resolved
        (timing_in planned.now.times)) }
    ensures spelled { IfOk result (λ made. Spells (spelling made) made) }
{
    checked.keeps_rules();
    root_elements_are_listed();
    ready_fits();
    slots_are_scheduled();
    let names = stream_names(alloc, checked)?;
    let core = match made_of(alloc, checked, planned) {
        Ok(core) => core,
        Err(wanting) => {
            discard(names);
            return Err(wanting);
        }
    };
    let made = wrap(alloc, &core, names.as_slice());
    core.discard();
    discard(names);
    made
}

/// The fault of ports that break the rule, by its line.
fn told_of(alloc: Global, checked: &Checked, fault: CheckFault) -> DesignFault
    ensures { IsRefusedOnPorts checked.now.diagram fault result }
{
    let fault = match fault {
        CheckFault::Broken(fault) => fault,
        CheckFault::OutOfMemory => return DesignFault::OutOfMemory,
    };
    let text = rule_text(alloc, &fault, checked.diagram().blocks.as_slice());
    fault.discard();
    match text {
        Ok(line) => DesignFault::BreaksRule { line },
        Err(OutOfMemory) => DesignFault::OutOfMemory,
    }
}

/// The module with valid and ready of the bytes of a model and of a plan; no bytes are the empty plan.
///
/// # Errors
/// Those of `designed_of`, and then `BreaksRule` by the rule of the diagram's ports. Or want of
/// memory.
pub fn streamed_of(alloc: Global, model: &[u8], plan: &[u8]) -> Result<Module, DesignFault>
    ensures { IsStreamModule model.now plan.now result }
{
    let designed = match designed_of(alloc, model, plan) {
        Ok(designed) => designed,
        Err(fault) => return Err(fault),
    };
    match check_ports(alloc, &designed.checked) {
        Ok(()) => (),
        Err(fault) => {
            let fault = told_of(alloc, &designed.checked, fault);
            designed.discard();
            return Err(fault);
        }
    }
    let made = stream_of(alloc, &designed.checked, &designed.planned);
    designed.discard();
    match made {
        Ok(made) => Ok(made),
        Err(OutOfMemory) => Err(DesignFault::OutOfMemory),
    }
}
