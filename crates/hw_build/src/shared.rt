//! The operations of shared blocks, as multipliers are asked for them.
ghost use Rattle.std.specs.Prelude.{◌≡◌, ◌<◌, [], IfOk, OnOk, Some, length, slice_get};
ghost use Rattle.dg_model.specs.Attributes.{attributes_of};
ghost use Rattle.hw_latency.specs.Shared.{is_shared as is_shared_of};
ghost use Rattle.hw_sched.specs.Slots.{operation};
ghost use Rattle.hw_build.specs.inner.BuildSteps.{CanBuild};
ghost use Rattle.hw_build.specs.inner.Factors.{AddsConstants, AreFirsts, GathersFor};
ghost use Rattle.hw_build.specs.inner.Factors.{IsGatheredFor, IsNumbered, first_for};
ghost use Rattle.hw_build.specs.inner.Factors.{if_shared};
ghost use Rattle.hw_build.specs.inner.ResultNets.{shared_width};

use crate::coefficients::second_of;
use crate::design::Design;
use crate::operands::Operands;
use dg_model::Block;
use fx_io::OutOfMemory;
use hw_latency::{block_at, is_shared, samples};
use hw_net::{Frame, Netlist};
use hw_sched::own_width;
use hw_share::Operation;
use std::alloc::Global;

/// The operation of this number, which is an element of a block.
fn shared_of<'a>(
    alloc: Global,
    net: &mut Netlist,
    design: Design<'a>,
    operands: &Operands,
    number: usize,
    block: u32,
    one: &Block,
    element: u32,
) -> Result<Operation, OutOfMemory>
    requires can { CanBuild design }
    requires block { slice_get design.checked.now.diagram.blocks block ≡ Some one.now }
    requires is { IsNumbered design number (operation block element) }
    ensures made { IfOk result (IsGatheredFor design.entry operands.now net.old net.new number
        (operation block element)) }
    ensures adds { OnOk result (AddsConstants net.old net.new) }
{
    let left = operands.at(design.checked, block, 1, element);
    let right = second_of(alloc, net, design.checked, operands, block, one, element)?;
    let frame = Frame {
        period: samples(design.checked.period(block)),
        latency: design.latencies.lat.as_slice()[block as usize],
    };
    let slot = design.slots.starts.as_slice()[number];
    let unit = design.slots.units.as_slice()[number];
    Ok(Operation {
        frame,
        slot,
        unit,
        left,
        right,
    })
}

/// Puts the operations of a block behind the others, if they are shared, and gives the number of the
/// first.
fn gather_block<'a>(
    alloc: Global,
    net: &mut Netlist,
    design: Design<'a>,
    operands: &Operands,
    operations: &mut Vec<Operation>,
    block: u32,
) -> Result<Option<u32>, OutOfMemory>
    requires can { CanBuild design }
    requires there { block < length design.checked.now.diagram.blocks }
    requires count { length operations.old.items ≡ first_for design block }
    ensures first { IfOk result (λ first. first ≡ if_shared
        (is_shared_of design.entry.checked.now.diagram
        (attributes_of design.entry.checked.now.diagram) design.entry.plan.now block)
        (first_for design.entry block)) }
    ensures more { OnOk result (GathersFor design.entry operands.now net.old net.new
        operations.old.items operations.new.items (first_for design.entry block)
        (shared_width design.entry.checked.now.diagram design.entry.plan.now block)) }
{
    if !is_shared(design.checked, design.plan, block) {
        return Ok(None);
    }
    let Ok(first) = u32::try_from(operations.len()) else {
        // word: the number of a shared operation, of 32 bits
        return Err(OutOfMemory);
    };
    let one = block_at(design.checked, block);
    for element in 0..own_width(design.checked, block) {
        let number = operations.len();
        let made = shared_of(alloc, net, design, operands, number, block, one, element)?;
        operations.push(made)?;
    }
    Ok(Some(first))
}

/// Gathers the operations of all shared blocks, and gives by block the number of the first.
pub fn gather<'a>(
    alloc: Global,
    net: &mut Netlist,
    design: Design<'a>,
    operands: &Operands,
    operations: &mut Vec<Operation>,
) -> Result<Vec<Option<u32>>, OutOfMemory>
    requires can { CanBuild design }
    requires none { operations.old.items ≡ [] }
    ensures firsts { IfOk result (λ firsts. AreFirsts design.entry.checked.now.diagram
        design.entry.plan.now firsts.items (length design.entry.checked.now.diagram.blocks)) }
    ensures more { OnOk result (GathersFor design.entry operands.now net.old net.new []
        operations.new.items 0
        (first_for design.entry (length design.entry.checked.now.diagram.blocks))) }
{
    let mut firsts = Vec::new(alloc);
    for place in 0..design.checked.diagram().blocks.as_slice().len() {
        let first = gather_block(alloc, net, design, operands, operations, place as u32)?;
        firsts.push(first)?;
    }
    Ok(firsts)
}
