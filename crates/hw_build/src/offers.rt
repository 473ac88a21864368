//! What the ends of a block offer to an element.
ghost use Rattle.std.specs.Prelude.{◌≡◌, [], ℕ, true, OnOk, List};
ghost use Rattle.dg_model.specs.declared.kind.Kind.{Kind};
ghost use Rattle.dg_model.specs.Solves.{shown_ports};
ghost use Rattle.hw_build.specs.inner.Entries.{works};
ghost use Rattle.hw_build.specs.inner.Offers.{AreBegins, ArePartsTo, IsAtHand, IsShownAt, OffersTo, reads_enable};

use crate::block_inputs::BlockInputs;
use crate::blocks::Setting;
use dg_model::{Block, Kind};
use dg_tables::{Place, operations_prepare};
use fx_io::{OutOfMemory, Sizes};
use hw_sched::width_into;

/// An element that is put in, and its block.
#[derive(Clone, Copy)]
pub struct Element<'a> {
    pub setting: Setting<'a>,
    pub place: Place,
    pub one: &'a Block,
}

/// Of each input port the element itself.
fn from_each<'a>(nets: &mut Sizes, to: Element<'a>) -> Result<(), OutOfMemory>
    requires kind { works to.one.now.kind ≡ true }
    requires none { nets.old ≡ [] }
    ensures { OnOk result (OffersTo to.entry nets.new) }
{
    let (checked, operands) = (to.setting.design.checked, to.setting.operands);
    for input in 0..to.one.inputs {
        let net = operands.at(checked, to.place.block, input + 1, to.place.element);
        nets.push(net)?;
    }
    Ok(())
}

/// The element, and what enables the block.
fn with_enable<'a>(nets: &mut Sizes, to: Element<'a>) -> Result<(), OutOfMemory>
    requires kind { reads_enable to.one.now.kind ≡ true }
    requires none { nets.old ≡ [] }
    ensures { OnOk result (OffersTo to.entry nets.new) }
{
    let (checked, operands) = (to.setting.design.checked, to.setting.operands);
    nets.push(operands.at(checked, to.place.block, 1, to.place.element))?;
    if to.one.enable.is_some() {
        nets.push(operands.enable(to.place.block))?;
    }
    Ok(())
}

/// All elements of the first input port.
fn from_first<'a>(nets: &mut Sizes, to: Element<'a>) -> Result<(), OutOfMemory>
    requires kind { to.one.now.kind ≡ Kind.EnableTest }
    requires none { nets.old ≡ [] }
    ensures { OnOk result (OffersTo to.entry nets.new) }
{
    let (checked, operands) = (to.setting.design.checked, to.setting.operands);
    let _path = &to.one.path;
    for element in 0..width_into(checked, to.place.block) {
        nets.push(operands.at(checked, to.place.block, 1, element))?;
    }
    Ok(())
}

/// The element of the part of a Mux in which it stands.
fn from_part<'a>(nets: &mut Sizes, to: Element<'a>, parts: &[u32]) -> Result<(), OutOfMemory>
    requires kind { (sizes : List ℕ) × (to.one.now.kind ≡ Kind.Mux sizes) }
    requires shown { IsShownAt to }
    requires parts { ArePartsTo to.setting to.place.block to.one.now to.one.now.inputs 0 parts.now }
    requires none { nets.old ≡ [] }
    ensures { OnOk result (OffersTo to.entry nets.new) }
{
    to.setting.design.checked.keeps_rules();
    operations_prepare();
    nets.push(parts[to.place.element as usize])
}

/// The element of the input of a Demux.
fn from_whole<'a>(nets: &mut Sizes, to: Element<'a>, begins: &[u32]) -> Result<(), OutOfMemory>
    requires kind { (sizes : List ℕ) × (to.one.now.kind ≡ Kind.Demux sizes) }
    requires shown { IsShownAt to }
    requires begins { AreBegins to.setting.design.checked.now.diagram to.place.block to.one.now
        (shown_ports to.one.now.kind to.one.now.outputs) begins.now }
    requires none { nets.old ≡ [] }
    ensures { OnOk result (OffersTo to.entry nets.new) }
{
    let (checked, operands) = (to.setting.design.checked, to.setting.operands);
    let begin = begins[to.place.port as usize - 1];
    let Some(element) = begin.checked_add(to.place.element) else {
        // word: the number of an element, of 32 bits
        return Err(OutOfMemory);
    };
    let net = operands.at(checked, to.place.block, 1, element);
    nets.push(net)
}

/// Puts the nets that the ends of a block offer to an element into an empty list.
pub fn put_operands<'a>(
    nets: &mut Sizes,
    to: Element<'a>,
    inputs: &BlockInputs,
) -> Result<(), OutOfMemory>
    requires hand { IsAtHand to inputs.now }
    requires none { nets.old ≡ [] }
    ensures { OnOk result (OffersTo to.entry nets.new) }
{
    match &to.one.kind {
        Kind::Inport { .. } => unreachable!(),
        Kind::Constant { .. } | Kind::Ground | Kind::Terminator => Ok(()),
        Kind::Delay { .. } | Kind::EnOut { .. } => with_enable(nets, to),
        Kind::RateTransition { .. } => {
            let (checked, operands) = (to.setting.design.checked, to.setting.operands);
            nets.push(operands.at(checked, to.place.block, 1, to.place.element))
        }
        Kind::Mux { .. } => from_part(nets, to, inputs.parts.as_slice()),
        Kind::Demux { .. } => from_whole(nets, to, inputs.begins.as_slice()),
        Kind::EnableTest => from_first(nets, to),
        Kind::Outport { .. }
        | Kind::Sum { .. }
        | Kind::Gain { .. }
        | Kind::Product
        | Kind::Switch { .. }
        | Kind::Relational { .. }
        | Kind::Logic { .. }
        | Kind::Convert { .. }
        | Kind::Pass { .. } => from_each(nets, to),
    }
}
