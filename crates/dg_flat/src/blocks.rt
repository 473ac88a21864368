ghost use Rattle.std.specs.Prelude.{◌≡◌, ℕ, ◌<◌, ◌≤◌, List, length, slice_get, option_map, MatchOption, IfOk, Some, ⊤};
ghost use Rattle.dg_model.specs.declared.nested.NestedBlock.{NestedBlock};
ghost use Rattle.dg_model.specs.Limits.{most_blocks};
ghost use Rattle.dg_flat.specs.Flat.{flat_place, flat_block as flat_block_of, flat_blocks as flat_blocks_of, resets, resets_under, placed_as, control_as};
ghost use Rattle.dg_flat.specs.Parts.{control_of};
ghost use Rattle.dg_flat.specs.inner.Paths.{ArePaths};
ghost use Rattle.dg_flat.specs.inner.Slots.{slot_of, HaveParents};
ghost use Rattle.dg_flat.specs.inner.Systems.{AreSystems};
ghost use Rattle.dg_flat.specs.inner.Tables.{IsTable};

use crate::kinds::copy_kind;
use crate::paths::path_in;
use crate::systems::{Systems, is_subsystem};
use dg_model::{Block, Blocks, Kind, NestedBlock, Part, Path, PeriodSpec, SystemPath};
use fx_io::OutOfMemory;
use fx_type::{Rounding, TypeSpec};
use std::alloc::Global;

/// Where each block stands in the flat list: subsystems are left out.
pub fn flat_places(alloc: Global, blocks: &[NestedBlock]) -> Result<Vec<u32>, OutOfMemory>
    requires { length blocks.now ≤ most_blocks }
    ensures { IfOk result (λ places. IsTable (length blocks.now)
        (flat_place blocks.now) places.items) }
{
    let mut places = Vec::with_capacity(alloc, blocks.len())?;
    let mut next: u32 = 0;
    for block in blocks {
        places.push(next)?;
        if !is_subsystem(&block.part) {
            next += 1;
        }
    }
    Ok(places)
}

/// Whether the states in the enabled subsystem of the EnablePort at a place begin anew when it is
/// enabled.
fn resets_at(blocks: &[NestedBlock], control: u32) -> bool
    requires { control < length blocks.now }
    ensures { result ≡ resets (slice_get blocks.now control) }
{
    match blocks[control as usize].part {
        Part::Enable { reset } => reset,
        Part::Plain(_) | Part::In(_, _) | Part::Out(_, _) | Part::SubSystem => false,
    }
}

/// The block with its path, in the enabled subsystem of this EnableTest.
fn placed_block(
    alloc: Global,
    block: &Block,
    path: Path,
    resets: bool,
    enable: Option<u32>,
) -> Result<Block, OutOfMemory>
    ensures { IfOk result (λ flat. flat ≡ placed_as path resets enable block.now) }
{
    let kind = copy_kind(alloc, &block.kind, resets)?;
    Ok(Block {
        path,
        kind,
        inputs: block.inputs,
        outputs: block.outputs,
        result: block.result,
        rounding: block.rounding,
        saturate: block.saturate,
        period: block.period,
        enable,
    })
}

/// The control of an enabled subsystem.
fn control_block(path: Path) -> Block
    ensures { result ≡ control_as path }
{
    Block {
        path,
        kind: Kind::EnableTest,
        inputs: 1,
        outputs: 1,
        result: TypeSpec::Auto,
        rounding: Rounding::Floor,
        saturate: false,
        period: PeriodSpec::Inherit,
        enable: None,
    }
}

/// The block with its path, in the enabled subsystem of this EnablePort.
fn placed_under(
    alloc: Global,
    blocks: &[NestedBlock],
    places: &[u32],
    block: &Block,
    path: Path,
    control: Option<u32>,
) -> Result<Block, OutOfMemory>
    requires places { IsTable (length blocks.now) (flat_place blocks.now) places.now }
    requires inside { MatchOption control ⊤ (λ place. place < length blocks.now) }
    ensures { IfOk result (λ flat. flat ≡ placed_as path (resets_under blocks.now control)
        (option_map (flat_place blocks.now) control) block.now) }
{
    match control {
        None => placed_block(alloc, block, path, false, None),
        Some(control) => {
            let resets = resets_at(blocks, control);
            placed_block(alloc, block, path, resets, Some(places[control as usize]))
        }
    }
}

/// The block that a part becomes; a subsystem becomes none.
fn flat_block(
    alloc: Global,
    systems: &Systems,
    blocks: &[NestedBlock],
    places: &[u32],
    paths: &[SystemPath],
    block: &NestedBlock,
) -> Result<Option<Block>, OutOfMemory>
    requires parents { HaveParents blocks.now }
    requires systems { AreSystems blocks.now systems.now }
    requires places { IsTable (length blocks.now) (flat_place blocks.now) places.now }
    requires paths { ArePaths blocks.now (length blocks.now) paths.now }
    requires within { slot_of block.now.parent ≤ length blocks.now }
    ensures { (place : ℕ) → slice_get blocks.now place ≡ Some block.now
        → IfOk result (λ flat. flat ≡
        flat_block_of blocks.now place (control_of blocks.now block.now.parent) block.now.part) }
{
    match &block.part {
        Part::Plain(own) | Part::In(own, _) | Part::Out(own, _) => {
            let path = path_in(alloc, paths, block.parent, &block.name)?;
            let control = systems.control(blocks, block.parent);
            let flat = placed_under(alloc, blocks, places, own, path, control)?;
            Ok(Some(flat))
        }
        Part::SubSystem => Ok(None),
        Part::Enable { .. } => {
            let path = path_in(alloc, paths, block.parent, &block.name)?;
            Ok(Some(control_block(path)))
        }
    }
}

/// The blocks in file order, without the subsystems.
pub fn flat_blocks(
    alloc: Global,
    systems: &Systems,
    blocks: &[NestedBlock],
    places: &[u32],
    paths: &[SystemPath],
) -> Result<Blocks, OutOfMemory>
    requires parents { HaveParents blocks.now }
    requires systems { AreSystems blocks.now systems.now }
    requires places { IsTable (length blocks.now) (flat_place blocks.now) places.now }
    requires paths { ArePaths blocks.now (length blocks.now) paths.now }
    ensures { IfOk result (λ flat. flat ≡ flat_blocks_of blocks.now) }
{
    let mut flat = Blocks::new(alloc);
    for block in blocks {
        if let Some(block) = flat_block(alloc, systems, blocks, places, paths, block)? {
            flat.push(block)?;
        }
    }
    Ok(flat)
}
