ghost use Rattle.std.specs.Prelude.{◌≡◌, suc, ◌<◌, ◌≤◌, length, set, slice_index_or, IfOk};
ghost use Rattle.dg_model.specs.Limits.{most_blocks};
ghost use Rattle.dg_flat.specs.Parts.{enable_port, control_of, is_subsystem as is_subsystem_of};
ghost use Rattle.dg_flat.specs.inner.Slots.{slot_of, system_of, first_of, HaveParents};
ghost use Rattle.dg_flat.specs.inner.Systems.{AreSystems};
ghost use Rattle.dg_flat.specs.inner.Tables.{IsTable};

use crate::numbering::{Numbering, Side};
use dg_model::{NestedBlock, Part};
use fx_io::OutOfMemory;
use std::alloc::Global;

/// What stands in each System (own).
#[derive(Drop)]
pub struct Systems {
    /// Its Inports.
    pub ins: Numbering,
    /// Its Outports.
    pub outs: Numbering,
    /// Its first EnablePort.
    pub enables: Vec<Option<u32>>,
    /// The first EnablePort of the nearest System around it, itself first, that has one.
    pub controls: Vec<Option<u32>>,
}

/// Where a System stands in a table: the root is the first, and that of a subsystem stands one behind
/// the place of its block.
pub fn slot(system: Option<u32>) -> usize
    ensures { result ≡ slot_of system }
{
    match system {
        None => 0,
        Some(block) => block as usize + 1,
    }
}

/// Whether the part is a subsystem.
pub fn is_subsystem(part: &Part) -> bool
    ensures { result ≡ is_subsystem_of part.now }
{
    match part {
        Part::SubSystem => true,
        Part::Plain(_) | Part::In(_, _) | Part::Out(_, _) | Part::Enable { .. } => false,
    }
}

/// Notes a place, if there is one, where none is noted yet.
pub fn note_first(table: &mut Vec<Option<u32>>, at: usize, place: Option<u32>)
    requires { at < length table.old.items }
    ensures { table.new.items ≡
        set table.old.items at (first_of (slice_index_or table.old.items at None) place) }
{
    if table[at].is_none() {
        table[at] = place;
    }
}

/// The first EnablePort of each System.
fn enable_ports(alloc: Global, blocks: &[NestedBlock]) -> Result<Vec<Option<u32>>, OutOfMemory>
    requires few { length blocks.now ≤ most_blocks }
    requires parents { HaveParents blocks.now }
    ensures { IfOk result (λ ports. IsTable (suc (length blocks.now))
        (λ slot. enable_port blocks.now (system_of slot)) ports.items) }
{
    let mut ports = vec![in alloc; None; blocks.len() + 1]?;
    for (place, block) in blocks.iter().enumerate() {
        if let Part::Enable { .. } = block.part {
            note_first(&mut ports, slot(block.parent), Some(place as u32));
        }
    }
    Ok(ports)
}

/// The EnablePort that each System is enabled by.
fn controls(
    alloc: Global,
    blocks: &[NestedBlock],
    enables: &[Option<u32>],
) -> Result<Vec<Option<u32>>, OutOfMemory>
    requires few { length blocks.now ≤ most_blocks }
    requires parents { HaveParents blocks.now }
    requires enables { IsTable (suc (length blocks.now))
        (λ slot. enable_port blocks.now (system_of slot)) enables.now }
    ensures { IfOk result (λ ports. IsTable (suc (length blocks.now))
        (λ slot. control_of blocks.now (system_of slot)) ports.items) }
{
    let mut controls = Vec::from_slice(alloc, enables)?;
    for (place, block) in blocks.iter().enumerate() {
        let around: Option<u32> = controls[slot(block.parent)];
        note_first(&mut controls, place + 1, around);
    }
    Ok(controls)
}

impl Systems {
    /// The tables of the Systems.
    pub fn of(alloc: Global, blocks: &[NestedBlock]) -> Result<Systems, OutOfMemory>
        requires few { length blocks.now ≤ most_blocks }
        requires parents { HaveParents blocks.now }
        ensures { IfOk result (AreSystems blocks.now) }
    {
        let enables = enable_ports(alloc, blocks)?;
        let controls = controls(alloc, blocks, &enables)?;
        let ins = Numbering::of(alloc, blocks, Side::In)?;
        let outs = Numbering::of(alloc, blocks, Side::Out)?;
        Ok(Systems {
            ins,
            outs,
            enables,
            controls,
        })
    }
}
