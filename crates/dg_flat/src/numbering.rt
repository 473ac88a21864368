ghost use Rattle.std.specs.Prelude.{◌≡◌, suc, ◌≤◌, ◌<◌, List, length, IfOk};
ghost use Rattle.dg_flat.specs.inner.PortNumbers.{number_on, count_at, IsNumbering, IsNumberedAt};
ghost use Rattle.dg_flat.specs.inner.Slots.{slot_of, HaveParents};
ghost use Rattle.dg_flat.specs.inner.Tables.{IsTable, AreRows};
ghost use Rattle.dg_flat.specs.declared.numbering.Side.{Side};
ghost use Rattle.dg_model.specs.declared.nested.NestedBlock.{NestedBlock};
ghost use Rattle.dg_model.specs.Limits.{most_blocks};

use crate::rows::Rows;
use crate::systems::{note_first, slot};
use dg_model::{NestedBlock, Part};
use fx_io::OutOfMemory;
use std::alloc::Global;

/// Which ports are numbered: Inports or Outports.
#[derive(Clone, Copy)]
pub enum Side {
    /// Inports.
    In,
    /// Outports.
    Out,
}

/// The Inports, or the Outports, of each System by number (own).
#[derive(Drop)]
pub struct Numbering {
    /// One row a System, as long as the System has such ports.
    pub rows: Rows,
    /// The first port of each number.
    pub ports: Vec<Option<u32>>,
}

/// The number of a port of this side; none at any other block.
pub fn number_of(side: Side, part: &Part) -> Option<u32>
    ensures { result ≡ number_on side part.now }
{
    match (side, part) {
        (Side::In, Part::In(_, number)) | (Side::Out, Part::Out(_, number)) => Some(*number),
        (Side::In, Part::Plain(_) | Part::Out(_, _) | Part::SubSystem | Part::Enable { .. })
        | (Side::Out, Part::Plain(_) | Part::In(_, _) | Part::SubSystem | Part::Enable { .. }) =>
            None,
    }
}

/// How many ports of this side each System has.
fn counts(alloc: Global, blocks: &[NestedBlock], side: Side) -> Result<Vec<u32>, OutOfMemory>
    requires few { length blocks.now ≤ most_blocks }
    requires parents { HaveParents blocks.now }
    ensures { IfOk result (λ counts. IsTable (suc (length blocks.now))
        (count_at blocks.now side) counts.items) }
{
    let mut counts = vec![in alloc; 0; blocks.len() + 1]?;
    for block in blocks {
        if number_of(side, &block.part).is_some() {
            counts[slot(block.parent)] += 1;
        }
    }
    Ok(counts)
}

impl Numbering {
    /// The ports of this side.
    pub fn of(alloc: Global, blocks: &[NestedBlock], side: Side) -> Result<Numbering, OutOfMemory>
        requires few { length blocks.now ≤ most_blocks }
        requires parents { HaveParents blocks.now }
        ensures { IfOk result (IsNumbering blocks.now side) }
    {
        let counts = counts(alloc, blocks, side)?;
        let rows = Rows::of(alloc, counts)?;
        let mut ports = vec![in alloc; None; rows.cells]?;
        for (place, block) in blocks.iter().enumerate() {
            if let Some(number) = number_of(side, &block.part) {
                if let Some(cell) = rows.cell(slot(block.parent), number) {
                    note_first(&mut ports, cell, Some(place as u32));
                }
            }
        }
        Ok(Numbering { rows, ports })
    }

    /// How many ports the System has.
    pub fn count(&self, system: Option<u32>) -> u32
        requires { slot_of system < length self.now.rows.lengths.items }
        ensures { (blocks : List NestedBlock) (side : Side) → IsNumbering blocks side self.now →
            result ≡ count_at blocks side (slot_of system) }
    {
        self.rows.lengths[slot(system)]
    }

    /// The first port of a number in the System; none where the number is above their count.
    pub fn first(&self, system: Option<u32>, number: u32) -> Option<u32>
        requires rows { AreRows self.now.rows }
        requires there { slot_of system < length self.now.rows.lengths.items }
        requires cells { length self.now.ports.items ≡ self.now.rows.cells }
        ensures { (blocks : List NestedBlock) (side : Side) → IsNumbering blocks side self.now →
            IsNumberedAt blocks side (slot_of system) number result }
    {
        match self.rows.cell(slot(system), number) {
            Some(cell) => self.ports[cell],
            None => None,
        }
    }
}
