ghost use Rattle.std.specs.Prelude.{◌≡◌, ◌≢◌, ℕ, ◌<◌, ◌≤◌, List, length, slice_index, IsTrue, IsFalse, IfOk, Some};
ghost use Rattle.dg_model.specs.declared.nested.NestedBlock.{NestedBlock};
ghost use Rattle.dg_model.specs.Limits.{most_blocks};
ghost use Rattle.dg_flat.specs.declared.numbering.Side.{Side};
ghost use Rattle.dg_flat.specs.Rules.{KeepsWiring};
ghost use Rattle.dg_flat.specs.inner.PortNumbers.{IsNumbering, IsNumberedAt};
ghost use Rattle.dg_flat.specs.inner.Slots.{slot_of, HaveParents};
ghost use Rattle.dg_flat.specs.inner.Systems.{AreSystems};
ghost use Rattle.dg_flat.specs.inner.Tables.{AreRows, HasCell, cell_at};
ghost use Rattle.dg_flat.specs.inner.Tally.{HaveEnds};
ghost use Rattle.dg_flat.specs.inner.Verdict.{IsKnown, KeepsPart, IsFirst};

use crate::numbering::Numbering;
use crate::systems::Systems;
use crate::tally::Tally;
use dg_model::{Nested, NestedBlock, Part};
use fx_io::OutOfMemory;
use std::alloc::Global;

/// Nested blocks and lines with the tables of their Systems and of what the lines drive (own).
#[derive(Clone, Copy)]
pub struct Known<'a> {
    pub nested: &'a Nested,
    pub systems: &'a Systems,
    pub tally: &'a Tally,
}

/// Each input port of a block has one driver.
fn is_driven(tally: &Tally, place: usize) -> bool
    requires rows { AreRows tally.now.rows }
    requires there { place < length tally.now.rows.lengths.items }
    requires drivers { length tally.now.drivers.items ≡ tally.now.rows.cells }
    ensures all { IsTrue result → (port : ℕ) → HasCell tally.now.rows.lengths.items place port →
        slice_index tally.now.drivers.items (cell_at tally.now.rows.lengths.items place port) ≡ 1 }
    ensures some { IsFalse result → (port : ℕ) × HasCell tally.now.rows.lengths.items place port
        × (slice_index tally.now.drivers.items (cell_at tally.now.rows.lengths.items place port)
        ≢ 1) }
{
    for before in 0..tally.rows.lengths[place] {
        if let Some(cell) = tally.rows.cell(place, before + 1) {
            if tally.drivers[cell] != 1 {
                return false;
            }
        }
    }
    true
}

/// The first port of a number in its System is at a place.
fn is_numbered(ports: &Numbering, system: Option<u32>, place: u32, number: u32) -> bool
    requires rows { AreRows ports.now.rows }
    requires there { slot_of system < length ports.now.rows.lengths.items }
    requires cells { length ports.now.ports.items ≡ ports.now.rows.cells }
    ensures yes { IsTrue result → (blocks : List NestedBlock) (side : Side) →
        IsNumbering blocks side ports.now
        → IsNumberedAt blocks side (slot_of system) number (Some place) }
    ensures no { IsFalse result → (blocks : List NestedBlock) (side : Side) →
        IsNumbering blocks side ports.now
        → ¬ IsNumberedAt blocks side (slot_of system) number (Some place) }
{
    match ports.first(system, number) {
        Some(first) => first == place,
        None => false,
    }
}

/// What the rule of wiring asks of an EnablePort, an Inport and an Outport.
fn keeps_part<'a>(known: Known<'a>, place: u32, block: &NestedBlock) -> bool
    requires { IsKnown known place block.now }
    ensures kept { IsTrue result → KeepsPart known.entry.nested.now place block.now }
    ensures broken { IsFalse result → ¬ KeepsPart known.entry.nested.now place block.now }
{
    match &block.part {
        Part::Plain(_) | Part::SubSystem => true,
        Part::In(_, number) => is_numbered(&known.systems.ins, block.parent, place, *number),
        Part::Out(_, number) => is_numbered(&known.systems.outs, block.parent, place, *number),
        Part::Enable { .. } => match block.parent {
            Some(system) => known.tally.enables[system as usize] == 1,
            None => false,
        },
    }
}

/// Whether a block keeps the rule of wiring.
fn keeps_wiring<'a>(known: Known<'a>, place: u32, block: &NestedBlock) -> bool
    requires { IsKnown known place block.now }
    ensures kept { IsTrue result → KeepsWiring known.entry.nested.now place block.now }
    ensures broken { IsFalse result → ¬ KeepsWiring known.entry.nested.now place block.now }
{
    if known.tally.lacks[place as usize] {
        return false;
    }
    if !is_driven(known.tally, place as usize) {
        return false;
    }
    keeps_part(known, place, block)
}

/// The first block that breaks the rule of wiring.
pub fn first_unwired(
    alloc: Global,
    systems: &Systems,
    nested: &Nested,
) -> Result<Option<u32>, OutOfMemory>
    requires few { length nested.now.blocks ≤ most_blocks }
    requires parents { HaveParents nested.now.blocks }
    requires ends { HaveEnds nested.now.blocks nested.now.lines }
    requires systems { AreSystems nested.now.blocks systems.now }
    ensures { IfOk result (IsFirst nested.now KeepsWiring) }
{
    let blocks = nested.blocks.as_slice();
    let tally = Tally::of(alloc, systems, blocks, nested.lines.as_slice())?;
    let known = Known {
        nested,
        systems,
        tally: &tally,
    };
    for (place, block) in blocks.iter().enumerate() {
        if !keeps_wiring(known, place as u32, block) {
            return Ok(Some(place as u32));
        }
    }
    Ok(None)
}
