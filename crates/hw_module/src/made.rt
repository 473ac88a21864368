//! The module of a netlist that stands in the place of a built one.
ghost use Rattle.std.specs.Prelude.{IfOk};
ghost use Rattle.dg_model.specs.PlanOf.{IsPlanOf};
ghost use Rattle.hw_module.specs.Design.{IsModuleOf};
ghost use Rattle.hw_module.specs.Laws.{IsRefinedOf};
ghost use Rattle.hw_sched.specs.Answer.{AreSlots, timing_of};
ghost use Rattle.vl_ast.specs.Grammar.{Spells};
ghost use Rattle.vl_ast.specs.Spelling.{spelling};
ghost use Rattle.vl_ast.specs.Stalls.{KeepsBits};

use crate::laws::refined_modules_owe_nothing;
use dg_model::{Checked, Resolved};
use fx_io::OutOfMemory;
use hw_build::slots_are_scheduled;
use hw_latency::Latencies;
use hw_net::Netlist;
use hw_sched::Slots;
use std::alloc::Global;
use vl_ast::Module;
use vl_emit::emit;

/// The module of a netlist that stands in the place of one that is built for a diagram by a plan with
/// its latencies and slots. The only error is want of memory.
pub fn module_of(
    alloc: Global,
    checked: &Checked,
    plan: &Resolved,
    latencies: &Latencies,
    slots: &Slots,
    netlist: &Netlist,
) -> Result<Module, OutOfMemory>
    requires plan { IsPlanOf checked.now.diagram plan.now }
    requires slots { AreSlots checked.now.diagram plan.now latencies.now slots.now }
    requires refined { IsRefinedOf checked.now.diagram plan.now
        (timing_of latencies.now slots.now.depths) netlist.now }
    ensures owed { IfOk result (λ made. IsModuleOf made checked.now.diagram plan.now
        (timing_of latencies.now slots.now.depths)) }
    ensures spelled { IfOk result (λ made. Spells (spelling made) made) }
    ensures keeps { IfOk result KeepsBits }
{
    checked.keeps_rules();
    slots_are_scheduled();
    refined_modules_owe_nothing();
    emit(alloc, netlist)
}
