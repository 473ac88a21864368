//! The ports of root outputs.
ghost use Rattle.std.specs.Prelude.{◌≡◌, ◌<◌, ◌≤◌, ◌^◌, [], IfOk, OnOk, length, slice_index_or};
ghost use Rattle.hw_build.specs.inner.BuildSteps.{CanBuild};
ghost use Rattle.hw_build.specs.inner.HubPlaces.{hub_at as hub_at_of};
ghost use Rattle.hw_build.specs.inner.RootOutputs.{clocks_to, AreOutputBlocks, IsOutputPort, AddsOutputs};
ghost use Rattle.hw_build.specs.inner.PortSteps.{AreOutputFirsts};

use crate::design::Design;
use crate::hubs::hub_at;
use crate::ports::{Showing, port_of};
use dg_model::PortWidths;
use fx_io::OutOfMemory;
use hw_names::{Names, columns_of};
use hw_net::{NetPort, Netlist};
use hw_sched::width_into;
use std::alloc::Global;

/// The port of an element of a root output, with the clock in which that shows its first value.
fn output_of<'a>(
    alloc: Global,
    names: &mut Names,
    design: Design<'a>,
    firsts: &PortWidths,
    block: u32,
    element: u32,
) -> Result<NetPort, OutOfMemory>
    requires can { CanBuild design }
    requires there { block < length design.checked.now.diagram.blocks }
    requires small { clocks_to design block ≤ 16777216 }
    requires first { 0 < length (slice_index_or firsts.now block []) }
    requires fits { hub_at_of firsts.now block 1 element < 2 ^ 32 }
    ensures { IfOk result
        (IsOutputPort design.entry firsts.now names.old names.new block element) }
{
    let width = width_into(design.checked, block);
    let lat = design.latencies.lat.as_slice()[block as usize];
    let ready = design.slots.ready.as_slice()[block as usize];
    let latency = lat * u64::from(design.plan.cycles) + ready;
    let net = hub_at(firsts, block, 1, element);
    let showing = Showing { net, latency };
    port_of(alloc, names, design.checked, block, width, element, showing)
}

/// Puts in a port for each root output element, whose blocks these are. By block, the firsts are
/// where the nets of its port begin.
pub fn put_outputs<'a>(
    alloc: Global,
    net: &mut Netlist,
    names: &mut Names,
    design: Design<'a>,
    firsts: &PortWidths,
    outputs: &[u32],
) -> Result<(), OutOfMemory>
    requires can { CanBuild design }
    requires are { AreOutputBlocks design outputs.now }
    requires firsts { AreOutputFirsts design.checked.now.diagram firsts.now }
    requires none { net.old.outputs ≡ [] }
    ensures { OnOk result (AddsOutputs design.entry firsts.now names.old names.new net.old net.new
        (length outputs.now)) }
{
    let checked = design.checked;
    dg_model::root_elements_are_listed();
    let columns = columns_of(alloc, checked.diagram().blocks.as_slice().len(), outputs)?;
    for column in 0..outputs.len() {
        let Ok(number) = u32::try_from(column) else {
            // word: the number of a root output element, of 32 bits
            return Err(OutOfMemory);
        };
        let block = outputs[column];
        let element = number - columns[block as usize];
        let port = output_of(alloc, names, design, firsts, block, element)?;
        net.add_output(port)?;
    }
    Ok(())
}
