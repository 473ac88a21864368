//! The ports of the module.
ghost use Rattle.std.specs.Prelude.{◌≡◌, ◌<◌, [], IfOk, OnOk, length};
ghost use Rattle.dg_model.specs.Attributes.{attributes_of};
ghost use Rattle.dg_model.specs.RootElements.{root_inputs};
ghost use Rattle.dg_tables.specs.Listing.{AreBlocksOf};
ghost use Rattle.hw_build.specs.inner.PortSteps.{IsPortOf, AddsInputPorts, AreInputFirsts};

use dg_model::{Checked, PortWidths};
use fx_io::OutOfMemory;
use hw_latency::{block_at, samples};
use hw_names::Names;
use hw_net::{NetPort, Netlist};
use hw_sched::own_width;
use std::alloc::Global;

/// What a port shows: the net of this number, of which the first value is there at this clock.
#[derive(Clone, Copy)]
pub struct Showing {
    pub net: u32,
    pub latency: u64,
}

/// The port of an element of a root block whose signal has this width.
pub fn port_of(
    alloc: Global,
    names: &mut Names,
    checked: &Checked,
    block: u32,
    width: u32,
    element: u32,
    showing: Showing,
) -> Result<NetPort, OutOfMemory>
    requires { block < length checked.now.diagram.blocks }
    ensures { IfOk result (IsPortOf checked.now.diagram names.old names.new block width element
        showing.net showing.latency) }
{
    let path = block_at(checked, block).path.text(alloc)?;
    let name = names.port(alloc, path.bytes(), width, element)?;
    let period = samples(checked.period(block));
    let Showing { net, latency } = showing;
    Ok(NetPort {
        name,
        net,
        period,
        latency,
    })
}

/// Puts in a port for each root input element, whose blocks these are. By block, the firsts are where
/// the nets of its port begin.
pub fn put_inputs(
    alloc: Global,
    net: &mut Netlist,
    names: &mut Names,
    checked: &Checked,
    firsts: &PortWidths,
    inputs: &[u32],
) -> Result<(), OutOfMemory>
    requires are { AreBlocksOf
        (root_inputs checked.now.diagram (attributes_of checked.now.diagram)) inputs.now }
    requires firsts { AreInputFirsts checked.now.diagram firsts.now }
    requires none { net.old.inputs ≡ [] }
    ensures { OnOk result (AddsInputPorts checked.now.diagram names.old names.new net.old net.new
        (length inputs.now)) }
{
    checked.keeps_rules();
    dg_model::root_elements_are_listed();
    for column in 0..inputs.len() {
        let Ok(number) = u32::try_from(column) else {
            // word: the number of a root input element, of 32 bits
            return Err(OutOfMemory);
        };
        let block = inputs[column];
        let element = number - firsts.at(block, 1);
        let width = own_width(checked, block);
        let showing = Showing {
            net: number,
            latency: 0,
        };
        let port = port_of(alloc, names, checked, block, width, element, showing)?;
        net.add_input(port)?;
    }
    Ok(())
}
