//! What all elements of a block read.
ghost use Rattle.std.specs.Prelude.{◌≡◌, ◌≤◌, ◌-◌, [], ℕ, OnOk, List, Some, slice_get};
ghost use Rattle.dg_model.specs.declared.kind.Kind.{Kind};
ghost use Rattle.dg_model.specs.Attributes.{attributes_of};
ghost use Rattle.dg_model.specs.Wires.{types_into, width_into as width_into_of};
ghost use Rattle.dg_model.specs.Solves.{shown_ports as shown_ports_of};
ghost use Rattle.hw_build.specs.inner.Offers.{AreBare, AreBegins, ArePartsTo, AreReadBy, IsBlockAt};

use crate::blocks::Setting;
use crate::full_types::type_into;
use crate::hubs::{shown_ports, shown_width};
use crate::operands::line_into;
use dg_model::{Block, Checked, Kind};
use fx_io::{OutOfMemory, Sizes};
use fx_type::FxType;

/// A block whose elements are put in.
#[derive(Clone, Copy)]
pub struct BlockAt<'a> {
    pub setting: Setting<'a>,
    pub block: u32,
    pub one: &'a Block,
}

/// What all elements of a block read.
#[derive(Drop)]
pub struct BlockInputs {
    /// The types of its input ports.
    pub types: Vec<FxType>,
    /// Of a Mux the net that each element is offered; of other kinds none.
    pub parts: Sizes,
    /// Of a Demux how many elements stand before those of each port; of other kinds none.
    pub begins: Sizes,
}

/// Puts the types of what a block reads at its input ports into an empty list.
fn put_types(
    types: &mut Vec<FxType>,
    checked: &Checked,
    block: u32,
    one: &Block,
) -> Result<(), OutOfMemory>
    requires is { slice_get checked.now.diagram.blocks block ≡ Some one.now }
    requires none { types.old.items ≡ [] }
    ensures { OnOk result (types.new.items ≡ types_into checked.now.diagram
        (attributes_of checked.now.diagram) block one.now.inputs) }
{
    for input in 0..one.inputs {
        types.push(type_into(checked, block, input + 1, one))?;
    }
    Ok(())
}

/// How many elements the line into an input port, from 1, of a block has.
fn width_at(checked: &Checked, block: u32, port: u32, one: &Block) -> u32
    requires is { slice_get checked.now.diagram.blocks block ≡ Some one.now }
    requires from { 1 ≤ port }
    requires to { port ≤ one.now.inputs }
    ensures { result ≡ width_into_of checked.now.diagram
        (attributes_of checked.now.diagram) block port }
{
    checked.keeps_rules();
    let line = line_into(checked, block, port, one);
    checked.width(line.from, line.from_port)
}

/// Puts in the nets that a Mux is offered at an input port, from 1.
fn put_part<'a>(parts: &mut Sizes, owner: BlockAt<'a>, port: u32) -> Result<(), OutOfMemory>
    requires is { IsBlockAt owner }
    requires kind { (sizes : List ℕ) × (owner.one.now.kind ≡ Kind.Mux sizes) }
    requires from { 1 ≤ port }
    requires to { port ≤ owner.one.now.inputs }
    requires before { ArePartsTo owner.setting owner.block owner.one.now (port - 1) 0 parts.old }
    ensures { OnOk result
        (ArePartsTo owner.entry.setting owner.entry.block owner.entry.one.now port 0 parts.new) }
{
    let (checked, operands) = (owner.setting.design.checked, owner.setting.operands);
    let width = width_at(checked, owner.block, port, owner.one);
    for left in 0..width {
        parts.push(operands.at(checked, owner.block, port, left))?;
    }
    Ok(())
}

/// Puts the nets that the elements of a Mux are offered into an empty list; none of a block of another
/// kind.
fn put_parts<'a>(parts: &mut Sizes, owner: BlockAt<'a>) -> Result<(), OutOfMemory>
    requires is { IsBlockAt owner }
    requires none { parts.old ≡ [] }
    ensures { OnOk result ((sizes : List ℕ) → owner.entry.one.now.kind ≡ Kind.Mux sizes
        → ArePartsTo owner.entry.setting owner.entry.block owner.entry.one.now owner.entry.one.now.inputs 0
        parts.new) }
{
    if let Kind::Mux { .. } = &owner.one.kind {
        for input in 0..owner.one.inputs {
            put_part(parts, owner, input + 1)?;
        }
    }
    Ok(())
}

/// Puts how many elements a Demux shows before those of each port into an empty list; none of a block of
/// another kind.
fn put_begins(
    begins: &mut Sizes,
    checked: &Checked,
    block: u32,
    one: &Block,
) -> Result<(), OutOfMemory>
    requires is { slice_get checked.now.diagram.blocks block ≡ Some one.now }
    requires none { begins.old ≡ [] }
    ensures { OnOk result ((sizes : List ℕ) → one.now.kind ≡ Kind.Demux sizes
        → AreBegins checked.now.diagram block one.now (shown_ports_of one.now.kind one.now.outputs)
        begins.new) }
{
    if let Kind::Demux { .. } = &one.kind {
        let mut total: u32 = 0;
        for port in 0..shown_ports(one) {
            begins.push(total)?;
            let width = shown_width(checked, block, one, port + 1);
            let Some(next) = total.checked_add(width) else {
                // word: how many elements a Demux shows, of 32 bits
                return Err(OutOfMemory);
            };
            total = next;
        }
    }
    Ok(())
}

/// Puts what all elements of a block read where nothing is yet.
pub fn put_inputs<'a>(inputs: &mut BlockInputs, owner: BlockAt<'a>) -> Result<(), OutOfMemory>
    requires is { IsBlockAt owner }
    requires bare { AreBare inputs.old }
    ensures { OnOk result
        (AreReadBy owner.entry.setting owner.entry.block owner.entry.one.now inputs.new) }
{
    let checked = owner.setting.design.checked;
    put_types(&mut inputs.types, checked, owner.block, owner.one)?;
    put_parts(&mut inputs.parts, owner)?;
    put_begins(&mut inputs.begins, checked, owner.block, owner.one)
}
