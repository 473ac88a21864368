//! The net of each element that a block shows, which its readers name.
ghost use Rattle.std.specs.Prelude.{◌≡◌, ◌-◌, ◌+◌, ◌<◌, ◌≤◌, ◌^◌, [], All, IfOk, OnOk, Some, length, slice_get, slice_index_or};
ghost use Rattle.dg_model.specs.Attributes.{attributes_of};
ghost use Rattle.dg_model.specs.Library.{row_of};
ghost use Rattle.dg_model.specs.RootElements.{root_inputs};
ghost use Rattle.dg_model.specs.Solves.{shown_ports as shown_ports_of, shown_width as shown_width_of};
ghost use Rattle.dg_tables.specs.Listing.{AreBlocksOf};
ghost use Rattle.hw_build.specs.inner.HubPlaces.{is_input_role, is_output_role, hub_start, hub_at as hub_at_of, AddsFresh, AddsBlock, AddsBlocks, AddsInputs, HasHubs};

use crate::parts::{put_comb, word_of};
use dg_model::{Block, Checked, Kind, PortWidths};
use fx_io::{OutOfMemory, PortSizes, Sizes};
use fx_type::FxType;
use hw_names::columns_of;
use hw_net::{NetOp, Netlist};
use hw_sched::width_into;
use std::alloc::Global;

/// Whether a block is a root input port.
pub fn is_input(kind: &Kind) -> bool
    ensures { result ≡ is_input_role (row_of kind.now).place.role }
{
    kind.row().role.input_number().is_some()
}

/// Whether a block is a root output port.
fn is_output(kind: &Kind) -> bool
    ensures { result ≡ is_output_role (row_of kind.now).place.role }
{
    kind.row().role.output_number().is_some()
}

/// How many ports a block shows.
pub fn shown_ports(one: &Block) -> u32
    ensures { result ≡ shown_ports_of one.now.kind one.now.outputs }
{
    if is_output(&one.kind) { 1 } else { one.outputs }
}

/// How many elements it shows at one, from 1.
pub fn shown_width(checked: &Checked, block: u32, one: &Block, port: u32) -> u32
    requires is { slice_get checked.now.diagram.blocks block ≡ Some one.now }
    requires from { 1 ≤ port }
    requires to { port ≤ shown_ports_of one.now.kind one.now.outputs }
    ensures { result
        ≡ shown_width_of checked.now.diagram (attributes_of checked.now.diagram)
        one.now.kind block port }
{
    checked.keeps_rules();
    if is_output(&one.kind) {
        width_into(checked, block)
    } else {
        checked.width(block, port)
    }
}

/// Puts in the nets of a port, which have no argument yet, and gives the first.
fn put_port(alloc: Global, net: &mut Netlist, kind: FxType, width: u32) -> Result<u32, OutOfMemory>
    ensures first { IfOk result (λ first. first ≡ length net.old.nets) }
    ensures adds { OnOk result (AddsFresh net.old net.new width kind) }
{
    let Ok(first) = u32::try_from(net.nets().len()) else {
        // word: the number of a net, of 32 bits
        return Err(OutOfMemory);
    };
    for element in 0..width {
        let number = put_comb(alloc, net, word_of(kind), NetOp::Resize, &[])?;
        let _ = number;
    }
    Ok(first)
}

/// Puts in the nets of a block, and puts the first of each port into an empty list. Those of a root
/// input port are its inputs, from this column on.
fn put_block(
    alloc: Global,
    net: &mut Netlist,
    firsts: &mut Sizes,
    checked: &Checked,
    column: u32,
    block: u32,
    one: &Block,
) -> Result<(), OutOfMemory>
    requires is { slice_get checked.now.diagram.blocks block ≡ Some one.now }
    requires none { firsts.old ≡ [] }
    ensures { OnOk result
        (AddsBlock checked.now.diagram net.old net.new column block one.now firsts.new) }
{
    if is_input(&one.kind) {
        return firsts.push(column);
    }
    let kind = checked.result(block);
    for port in 0..shown_ports(one) {
        let width = shown_width(checked, block, one, port + 1);
        let first = put_port(alloc, net, kind, width)?;
        firsts.push(first)?;
    }
    Ok(())
}

/// Puts in the nets of all blocks, behind those of the root inputs, and puts the first of each port into
/// an empty list. By block, the columns are where those of a root input port begin.
fn put_blocks(
    alloc: Global,
    net: &mut Netlist,
    firsts: &mut PortSizes,
    checked: &Checked,
    columns: &[u32],
) -> Result<(), OutOfMemory>
    requires size { length net.old.nets ≡ hub_start checked.now.diagram 0 }
    requires columns { length columns.now ≡ length checked.now.diagram.blocks }
    requires none { firsts.old ≡ [] }
    ensures { OnOk result (AddsBlocks checked.now.diagram net.old net.new columns.now
        firsts.new (length checked.now.diagram.blocks)) }
{
    let blocks = checked.diagram().blocks.as_slice();
    let Ok(count) = u32::try_from(blocks.len()) else {
        // word: how many blocks there are, of 32 bits
        return Err(OutOfMemory);
    };
    for block in 0..count {
        let column = columns[block as usize];
        let mut own = Sizes::new(alloc);
        put_block(
            alloc,
            net,
            &mut own,
            checked,
            column,
            block,
            &blocks[block as usize],
        )?;
        firsts.push(own)?;
    }
    Ok(())
}

/// Puts in a net for each root input element, whose blocks these are.
fn put_inputs(
    alloc: Global,
    net: &mut Netlist,
    checked: &Checked,
    inputs: &[u32],
) -> Result<(), OutOfMemory>
    requires none { length net.old.nets ≡ 0 }
    requires there { All (λ block. block < length checked.now.diagram.blocks) inputs.now }
    ensures { OnOk result (AddsInputs checked.now.diagram net.old net.new inputs.now
        (length inputs.now)) }
{
    for column in 0..inputs.len() {
        let Ok(number) = u32::try_from(column) else {
            // word: the number of a root input element, of 32 bits
            return Err(OutOfMemory);
        };
        let kind = checked.result(inputs[column]);
        let place = put_comb(alloc, net, word_of(kind), NetOp::Input(number), &[])?;
        let _ = place;
    }
    Ok(())
}

/// Puts in the nets that readers name: first one for each root input element, whose blocks these
/// are, then those of the other blocks in order. It gives the first of each port of each block.
pub fn hubs_of(
    alloc: Global,
    net: &mut Netlist,
    checked: &Checked,
    inputs: &[u32],
) -> Result<PortWidths, OutOfMemory>
    requires none { length net.old.nets ≡ 0 }
    requires are { AreBlocksOf
        (root_inputs checked.now.diagram (attributes_of checked.now.diagram)) inputs.now }
    ensures { IfOk result (λ firsts. HasHubs checked.now.diagram net.old net.new firsts) }
{
    checked.keeps_rules();
    dg_model::root_elements_are_listed();
    put_inputs(alloc, net, checked, inputs)?;
    let columns = columns_of(alloc, checked.diagram().blocks.as_slice().len(), inputs)?;
    let mut firsts = PortSizes::new(alloc);
    match put_blocks(alloc, net, &mut firsts, checked, columns.as_slice()) {
        Ok(()) => {
            let widths = PortWidths::of(alloc, &firsts);
            drop(firsts);
            widths
        }
        Err(wanting) => {
            drop(firsts);
            Err(wanting)
        }
    }
}

/// The net of an element at a port, from 1, of a block.
pub fn hub_at(firsts: &PortWidths, block: u32, port: u32, element: u32) -> u32
    requires port { 1 ≤ port }
    requires there { port - 1 < length (slice_index_or firsts.now block []) }
    requires fits { hub_at_of firsts.now block port element < 2 ^ 32 }
    ensures { result ≡ hub_at_of firsts.now block port element }
{
    firsts.at(block, port) + element
}
