//! The nets that ends of blocks are offered are put in.
ghost use Rattle.std.specs.Prelude.{◌≡◌, ◌≤◌, IfOk, length};
ghost use Rattle.dg_model.specs.Attributes.{attributes_of};
ghost use Rattle.dg_model.specs.RootElements.{root_inputs};
ghost use Rattle.hw_build.specs.inner.DesignTimes.{IsDesigned, times_for};
ghost use Rattle.hw_build.specs.inner.LineStep.{AreLinesPut, StandHubs};

use crate::asks::Asks;
use crate::chains::put_asks;
use crate::gathering::{Ends, ends_are_lawful, gather_controls, gather_lines};
use crate::operands::{Operands, Spans};
use fx_io::OutOfMemory;
use hw_net::Netlist;
use std::alloc::Global;

/// Puts in the nets that all ends are offered, behind those that readers name.
///
/// # Errors
/// Want of memory, also where the number of a net has no room in 32 bits.
pub fn put_lines<'a>(
    alloc: Global,
    net: &mut Netlist,
    ends: Ends<'a>,
) -> Result<Operands, OutOfMemory>
    requires designed { IsDesigned ends.design }
    requires cycles { net.old.cycles ≡ ends.design.plan.now.cycles }
    requires inputs { length net.old.inputs ≤ length (root_inputs ends.design.checked.now.diagram
        (attributes_of ends.design.checked.now.diagram)) }
    requires hubs { StandHubs ends.design.checked.now.diagram net.old ends.hubs.now }
    ensures { IfOk result (λ operands. AreLinesPut ends.entry.design.checked.now.diagram
        ends.entry.design.plan.now (times_for ends.entry.design) net.old net.new
        ends.entry.hubs.now operands) }
{
    ends.design.checked.keeps_rules();
    dg_model::root_elements_are_listed();
    dg_tables::operations_prepare();
    let Ok(_count) = u32::try_from(net.nets().len()) else {
        // word: how many nets there are, of 32 bits
        return Err(OutOfMemory);
    };
    ends_are_lawful(ends);
    let mut asks = Asks {
        list: Vec::new(alloc),
        wants: Vec::new(alloc),
    };
    let mut lines = Spans::new(alloc);
    gather_lines(&mut asks, &mut lines, ends)?;
    let mut controls = Spans::new(alloc);
    gather_controls(&mut asks, &mut controls, ends)?;
    let nets = put_asks(alloc, net, &asks)?;
    Ok(Operands {
        nets,
        lines,
        controls,
    })
}
