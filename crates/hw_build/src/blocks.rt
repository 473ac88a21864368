//! The elements of blocks, block by block.
ghost use Rattle.std.specs.Prelude.{◌≡◌, ◌++◌, ◌-◌, ◌≤◌, false, suc, IfOk, OnOk};
ghost use Rattle.dg_model.specs.Library.{row_of};
ghost use Rattle.dg_model.specs.Solves.{shown_ports as shown_ports_of};
ghost use Rattle.hw_build.specs.inner.HubPlaces.{hub_at as hub_at_of, hub_start, is_input_role};
ghost use Rattle.hw_build.specs.inner.Offers.{AreBare, AreReadBy, IsAtHand, IsBlockAt};
ghost use Rattle.hw_build.specs.inner.Spots.{Spots};
ghost use Rattle.hw_build.specs.inner.Tally.{product_labels};
ghost use Rattle.hw_build.specs.inner.ElementLoop.{HasElements, IsBegun, IsEntered, IsKnown, IsSet, Reaches, Stands, port_start};

use crate::block_inputs::{BlockAt, BlockInputs, put_inputs};
use crate::design::Design;
use crate::entries::put_entry;
use crate::entry::Made;
use crate::full_types::full_type;
use crate::hubs::{hub_at, is_input, shown_ports, shown_width};
use crate::labels::label;
use crate::offers::{Element, put_operands};
use crate::operands::Operands;
use crate::pipelines::put_pipeline;
use crate::products::Products;
use crate::site::Site;
use crate::worked::put_shared;
use dg_model::PortWidths;
use dg_tables::{Place, operations_prepare};
use fx_io::{OutOfMemory, Sizes};
use hw_net::{NetLabel, Netlist};
use hw_sched::{lines_are_edges, periods_are_above};
use std::alloc::Global;

/// What elements are put in by.
#[derive(Clone, Copy)]
pub struct Setting<'a> {
    pub design: Design<'a>,
    pub firsts: &'a PortWidths,
    pub operands: &'a Operands,
    pub products: &'a Products,
}

/// What is known when elements are put in.
fn setting_is_known<'a>(setting: Setting<'a>)
    requires { IsSet setting }
    ensures { IsKnown setting.entry }
{
    setting.design.checked.keeps_rules();
    dg_model::root_elements_are_listed();
    dg_model::edges_stand_by_port();
    operations_prepare();
    fx_type::stored_is_one();
    lines_are_edges();
}

/// Puts in an element of a block, before its pipeline.
fn put_one<'a>(alloc: Global, net: &mut Netlist, element: Element<'a>, inputs: &BlockInputs) -> Made
    requires set { IsSet element.setting }
    requires hand { IsAtHand element inputs.now }
    requires going { Stands element.setting net.old }
    ensures { IfOk result (λ entry. IsEntered element.entry.setting net.old net.new
        element.entry.place.block element.entry.one.now element.entry.place.port
        element.entry.place.element entry) }
{
    let (setting, place, one) = (element.setting, element.place, element.one);
    setting_is_known(setting);
    fx_type::full_product_is_one();
    let design = setting.design;
    if let Some(product) = setting.products.at(place.block, place.element) {
        let full = full_type(design.checked, place.block, one);
        return put_shared(alloc, net, design, place, one, full, product);
    }
    let mut operands = Sizes::new(alloc);
    if let Err(wanting) = put_operands(&mut operands, element, inputs) {
        drop(operands);
        return Err(wanting);
    }
    let site = Site {
        design,
        place,
        one,
        operands: operands.as_slice(),
        types: inputs.types.as_slice(),
    };
    let entry = put_entry(alloc, net, site);
    drop(operands);
    entry
}

/// Names the multiplication of an element of a block, if it has one of its own.
fn name_product(
    alloc: Global,
    net: &mut Netlist,
    block: u32,
    element: u32,
    multiply: Option<u32>,
) -> Result<(), OutOfMemory>
    ensures { OnOk result (net.new ≡ record net.old {
      labels = net.old.labels ++ product_labels block element multiply;
    }) }
{
    let Some(number) = multiply else {
        return Ok(());
    };
    let name = label(alloc, b"fx_m", block, element, None)?;
    net.add_label(NetLabel { net: number, name })
}

/// Puts in an element of a block with its pipeline and its net.
fn put_element<'a>(
    alloc: Global,
    net: &mut Netlist,
    element: Element<'a>,
    inputs: &BlockInputs,
) -> Result<(), OutOfMemory>
    requires set { IsSet element.setting }
    requires hand { IsAtHand element inputs.now }
    requires before { Reaches element.setting net.old
        (hub_at_of element.setting.firsts.now element.place.block element.place.port
        element.place.element) }
    ensures { OnOk result (Reaches element.entry.setting net.new
        (suc (hub_at_of element.entry.setting.firsts.now element.entry.place.block
        element.entry.place.port element.entry.place.element))) }
{
    let (setting, place) = (element.setting, element.place);
    setting_is_known(setting);
    periods_are_above();
    let entry = put_one(alloc, net, element, inputs)?;
    let piped = put_pipeline(
        alloc,
        net,
        setting.design,
        place.block,
        place.element,
        entry.net,
    )?;
    let hub = hub_at(setting.firsts, place.block, place.port, place.element);
    net.connect(alloc, hub, piped.end)?;
    name_product(alloc, net, place.block, place.element, entry.multiply)
}

/// Puts in the elements of a block at a port, from 1.
fn put_port<'a>(
    alloc: Global,
    net: &mut Netlist,
    owner: BlockAt<'a>,
    inputs: &BlockInputs,
    port: u32,
) -> Result<(), OutOfMemory>
    requires set { IsSet owner.setting }
    requires inputs { AreReadBy owner.setting owner.block owner.one.now inputs.now }
    requires is { IsBlockAt owner }
    requires other { is_input_role (row_of owner.one.now.kind).place.role ≡ false }
    requires from { 1 ≤ port }
    requires to { port ≤ shown_ports_of owner.one.now.kind owner.one.now.outputs }
    requires before { Reaches owner.setting net.old
        (port_start owner.setting.design.checked.now.diagram owner.block owner.one.now (port - 1)) }
    ensures { OnOk result (Reaches owner.entry.setting net.new
        (port_start owner.entry.setting.design.checked.now.diagram owner.entry.block
        owner.entry.one.now port)) }
{
    let (setting, block, one) = (owner.setting, owner.block, owner.one);
    let width = shown_width(setting.design.checked, block, one, port);
    for element in 0..width {
        let place = Place {
            block,
            port,
            element,
        };
        let to = Element {
            setting,
            place,
            one,
        };
        put_element(alloc, net, to, inputs)?;
    }
    Ok(())
}

/// Puts in the elements of a block that is no root input, of which nothing is read yet.
fn put_ports<'a>(
    alloc: Global,
    net: &mut Netlist,
    owner: BlockAt<'a>,
    inputs: &mut BlockInputs,
) -> Result<(), OutOfMemory>
    requires set { IsSet owner.setting }
    requires is { IsBlockAt owner }
    requires other { is_input_role (row_of owner.one.now.kind).place.role ≡ false }
    requires bare { AreBare inputs.old }
    requires before { Reaches owner.setting net.old
        (hub_start owner.setting.design.checked.now.diagram owner.block) }
    ensures { OnOk result (Reaches owner.entry.setting net.new
        (hub_start owner.entry.setting.design.checked.now.diagram (suc owner.entry.block))) }
{
    put_inputs(inputs, owner)?;
    for port in 0..shown_ports(owner.one) {
        put_port(alloc, net, owner, inputs, port + 1)?;
    }
    Ok(())
}

/// Puts in the elements of a block.
fn put_block<'a>(alloc: Global, net: &mut Netlist, owner: BlockAt<'a>) -> Result<(), OutOfMemory>
    requires set { IsSet owner.setting }
    requires is { IsBlockAt owner }
    requires before { Reaches owner.setting net.old
        (hub_start owner.setting.design.checked.now.diagram owner.block) }
    ensures { OnOk result (Reaches owner.entry.setting net.new
        (hub_start owner.entry.setting.design.checked.now.diagram (suc owner.entry.block))) }
{
    if is_input(&owner.one.kind) {
        return Ok(());
    }
    let mut inputs = BlockInputs {
        types: Vec::new(alloc),
        parts: Sizes::new(alloc),
        begins: Sizes::new(alloc),
    };
    let put = put_ports(alloc, net, owner, &mut inputs);
    drop(inputs);
    put
}

/// Puts in the elements of all blocks but root inputs, whose nets are elements themselves.
pub fn put_elements<'a>(
    alloc: Global,
    net: &mut Netlist,
    setting: Setting<'a>,
) -> Result<(), OutOfMemory>
    requires set { IsSet setting }
    requires begun { IsBegun setting net.old }
    ensures { OnOk result ((spots : Spots) × HasElements setting.entry net.new spots) }
{
    setting_is_known(setting);
    let blocks = setting.design.checked.diagram().blocks.as_slice();
    for block in 0..blocks.len() {
        let owner = BlockAt {
            setting,
            block: block as u32,
            one: &blocks[block],
        };
        put_block(alloc, net, owner)?;
    }
    Ok(())
}
