//! The steps of a building one after another.
ghost use Rattle.std.specs.Prelude.{IfErr, IfOk, OnOk};
ghost use Rattle.dg_model.specs.PlanOf.{IsPlanOf};
ghost use Rattle.hw_latency.specs.Latency.{AreLatencies};
ghost use Rattle.hw_sched.specs.Answer.{AreSlots};
ghost use Rattle.hw_build.specs.Built.{IsBuiltBy, IsBuildFault};
ghost use Rattle.hw_build.specs.inner.BuildSteps.{AreInputBlocks, CanBuild, IsDoneFor, IsEmptyFor, IsFilledFor, empty_circuit};
ghost use Rattle.hw_build.specs.inner.HubPlaces.{HasHubs};
ghost use Rattle.hw_build.specs.inner.RootOutputs.{AreOutputBlocks};

use crate::blocks::{Setting, put_elements};
use crate::design::Design;
use crate::gathering::Ends;
use crate::hubs::hubs_of;
use crate::laws::{done_is_built, slots_are_scheduled};
use crate::lining::put_lines;
use crate::outputs::put_outputs;
use crate::ports::put_inputs;
use crate::products::products_of;
use dg_model::{Checked, PortWidths, Resolved};
use dg_tables::{input_blocks, output_blocks};
use fx_io::OutOfMemory;
use hw_latency::Latencies;
use hw_names::Names;
use hw_net::Netlist;
use hw_sched::{SizeFault, Slots, check_size};
use std::alloc::Global;

/// Puts in all nets behind those that readers name, with which the ends begin.
fn put_nets<'a>(alloc: Global, net: &mut Netlist, ends: Ends<'a>) -> Result<(), OutOfMemory>
    requires can { CanBuild ends.design }
    requires hubs { HasHubs ends.design.checked.now.diagram
        (empty_circuit ends.design.plan.now.cycles) net.old ends.hubs.now }
    ensures { OnOk result (IsFilledFor ends.entry.design net.new ends.entry.hubs.now) }
{
    let design = ends.design;
    design.checked.keeps_rules();
    dg_model::columns_are_a_stimulus();
    dg_model::edges_stand_by_port();
    dg_model::root_elements_are_listed();
    let operands = put_lines(alloc, net, ends)?;
    let products = match products_of(alloc, net, design, &operands) {
        Ok(products) => products,
        Err(wanting) => {
            drop(operands);
            return Err(wanting);
        }
    };
    let setting = Setting {
        design,
        firsts: ends.hubs,
        operands: &operands,
        products: &products,
    };
    let put = put_elements(alloc, net, setting);
    drop(products);
    drop(operands);
    put
}

/// Puts in all ports, whose blocks these are. By block, the firsts are where the nets begin that
/// readers name.
fn put_ports<'a>(
    alloc: Global,
    net: &mut Netlist,
    design: Design<'a>,
    firsts: &PortWidths,
    inputs: &[u32],
    outputs: &[u32],
) -> Result<(), OutOfMemory>
    requires can { CanBuild design }
    requires filled { IsFilledFor design net.old firsts.now }
    requires inputs { AreInputBlocks design inputs.now }
    requires outputs { AreOutputBlocks design outputs.now }
    ensures { OnOk result (IsDoneFor design.entry net.new) }
{
    dg_model::root_elements_are_listed();
    hw_sched::periods_are_above();
    let mut names = Names::new(alloc)?;
    match put_inputs(alloc, net, &mut names, design.checked, firsts, inputs) {
        Ok(()) => {
            let put = put_outputs(alloc, net, &mut names, design, firsts, outputs);
            names.discard();
            put
        }
        Err(wanting) => {
            names.discard();
            Err(wanting)
        }
    }
}

/// Puts in all nets and then all ports, whose blocks these are.
fn put_netlist<'a>(
    alloc: Global,
    net: &mut Netlist,
    design: Design<'a>,
    inputs: &[u32],
    outputs: &[u32],
) -> Result<(), OutOfMemory>
    requires can { CanBuild design }
    requires empty { IsEmptyFor design net.old }
    requires inputs { AreInputBlocks design inputs.now }
    requires outputs { AreOutputBlocks design outputs.now }
    ensures { OnOk result (IsDoneFor design.entry net.new) }
{
    let firsts = hubs_of(alloc, net, design.checked, inputs)?;
    let ends = Ends {
        design,
        hubs: &firsts,
    };
    match put_nets(alloc, net, ends) {
        Ok(()) => {
            let put = put_ports(alloc, net, design, &firsts, inputs, outputs);
            drop(firsts);
            put
        }
        Err(wanting) => {
            drop(firsts);
            Err(wanting)
        }
    }
}

/// Puts all nets and ports into an empty netlist.
fn put_all<'a>(alloc: Global, net: &mut Netlist, design: Design<'a>) -> Result<(), OutOfMemory>
    requires can { CanBuild design }
    requires empty { IsEmptyFor design net.old }
    ensures { OnOk result (IsDoneFor design.entry net.new) }
{
    let inputs = input_blocks(alloc, design.checked)?;
    let outputs = match output_blocks(alloc, design.checked) {
        Ok(outputs) => outputs,
        Err(wanting) => {
            drop(inputs);
            return Err(wanting);
        }
    };
    let put = put_netlist(alloc, net, design, inputs.as_slice(), outputs.as_slice());
    drop(outputs);
    drop(inputs);
    put
}

/// The netlist of a checked diagram by a plan, with its latencies and slots, where it keeps the rule of
/// size. Its time is n log n in the blocks, lines, elements and registers.
/// Source: own; HDL Coder, delay balancing and resource sharing.
pub fn build(
    alloc: Global,
    checked: &Checked,
    plan: &Resolved,
    latencies: &Latencies,
    slots: &Slots,
) -> Result<Netlist, SizeFault>
    requires plan { IsPlanOf checked.now.diagram plan.now }
    requires latencies { AreLatencies checked.now.diagram plan.now latencies.now }
    requires slots { AreSlots checked.now.diagram plan.now latencies.now slots.now }
    ensures built { IfOk result
        (IsBuiltBy checked.now.diagram plan.now latencies.now slots.now) }
    ensures fault { IfErr result
        (IsBuildFault checked.now.diagram plan.now latencies.now slots.now) }
{
    checked.keeps_rules();
    slots_are_scheduled();
    done_is_built();
    let sizing = check_size(checked, plan, latencies, slots.ready.as_slice())?;
    let _ = sizing;
    let design = Design {
        checked,
        plan,
        latencies,
        slots,
    };
    let mut net = Netlist::new(alloc, plan.cycles);
    match put_all(alloc, &mut net, design) {
        Ok(()) => Ok(net),
        Err(OutOfMemory) => {
            net.discard();
            Err(SizeFault::OutOfMemory)
        }
    }
}
