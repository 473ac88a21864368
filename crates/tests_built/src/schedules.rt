//! What is told of a schedule: who serves shared operations, and how late outputs are.
ghost use Rattle.std.specs.Prelude.{◌≡◌, length};
ghost use Rattle.dg_model.specs.PlanOf.{IsPlanOf};

use anyhow::{Error, Result};
use dg_model::{Block, Checked, Kind, Path, Resolved};
use hw_latency::is_shared;
use hw_sched::{Slots, own_width};
use std::alloc::Global;
use std::io::Write;
use tests_rows::write_result;

/// Tells of each shared operation its slot and its multiplier, and of each root output when it is
/// ready.
pub fn put_slots<W: Write>(
    alloc: Global,
    checked: &Checked,
    plan: &Resolved,
    lats: &[u64],
    slots: &Slots,
    out: &mut W,
) -> Result<()>
    requires plan { IsPlanOf checked.now.diagram plan.now }
    requires lats { length lats.now ≡ length checked.now.diagram.blocks }
    requires readys { length slots.now.ready ≡ length checked.now.diagram.blocks }
{
    checked.keeps_rules();
    let blocks = checked.diagram().blocks.as_slice();
    let mut number = 0usize;
    for place in 0..blocks.len() {
        if is_shared(checked, plan, place as u32) {
            let width = own_width(checked, place as u32);
            number = put_elements(alloc, &blocks[place], width, slots, number, out)?;
        }
    }
    put_outputs(
        alloc,
        blocks,
        lats,
        slots.ready.as_slice(),
        plan.cycles,
        out,
    )
}

/// Tells the slots of the elements of a block, whose first operation has this number; gives the
/// number behind them.
fn put_elements<W: Write>(
    alloc: Global,
    block: &Block,
    width: u32,
    slots: &Slots,
    first: usize,
    out: &mut W,
) -> Result<usize> {
    let path = block.path.text(alloc)?;
    let mut number = first;
    for element in 0..width {
        put_element(path.bytes(), element, slots, number, out)?;
        number = number.wrapping_add(1);
    }
    Ok(number)
}

fn put_element<W: Write>(
    path: &[u8],
    element: u32,
    slots: &Slots,
    number: usize,
    out: &mut W,
) -> Result<()> {
    let Some(slot) = slots.starts.as_slice().get(number) else {
        return Err(Error::msg("an operation has no slot"));
    };
    let Some(unit) = slots.units.as_slice().get(number) else {
        return Err(Error::msg("an operation has no multiplier"));
    };
    out.write_all(path)?;
    write_result(writeln!(out, " element {element} slot {slot} multiplier {unit}"))
}

/// Tells of each root output when it is ready in its period, and the latency that is declared of it.
fn put_outputs<W: Write>(
    alloc: Global,
    blocks: &[Block],
    lats: &[u64],
    readys: &[u64],
    cycles: u32,
    out: &mut W,
) -> Result<()>
    requires lats { length lats.now ≡ length blocks.now }
    requires readys { length readys.now ≡ length blocks.now }
{
    for place in 0..blocks.len() {
        if is_output(&blocks[place].kind) {
            let ready = readys[place];
            let declared = latency_in_clocks(lats[place], cycles, ready)?;
            put_path(alloc, &blocks[place].path, out)?;
            writeln!(out, " ready {ready} declared {declared}")?;
        }
    }
    Ok(())
}

/// Whether a block is a root output.
fn is_output(kind: &Kind) -> bool {
    kind.row().role.output_number().is_some()
}

/// A latency in clocks.
fn latency_in_clocks(lat: u64, cycles: u32, ready: u64) -> Result<u64> {
    let Some(clocks) = lat.checked_mul(u64::from(cycles)) else {
        return Err(Error::msg("a latency of 2^64 or more"));
    };
    let Some(clocks) = clocks.checked_add(ready) else {
        return Err(Error::msg("a latency of 2^64 or more"));
    };
    Ok(clocks)
}

/// Writes the path of a block.
pub fn put_path<W: Write>(alloc: Global, path: &Path, out: &mut W) -> Result<()> {
    let text = path.text(alloc)?;
    write_result(out.write_all(text.bytes()))
}
