ghost use Rattle.std.specs.Prelude.{◌≡◌, ◌^◌, ◌<◌, ◌≤◌, [], length, replicate, slice_get, Some, IfOk, OnOk};
ghost use Rattle.dg_model.specs.declared.diagram.Block.{Block};
ghost use Rattle.dg_types.specs.inner.Build.{AreAlike, CanLink, Gathered, Known, IsPortOf, all_forms};
ghost use Rattle.dg_types.specs.inner.WidthShapes.{shape_of, share_at as share_at_shape, part_of, source_of as source_of_edge, Mirrors};
ghost use Rattle.dg_model.specs.Widths.{are_open as are_open_of};

use crate::linked::{Share, Source, WidthRound};
use dg_model::{Block, Diagram, Edge, Kind, Shape};
use fx_io::{OutOfMemory, Sequence, Sizes, empty_rows, push_at};
use std::alloc::Global;

/// Whether no size is fixed, in one step, where each is or none.
fn are_all_open(sizes: &[u32]) -> bool
    requires some { 0 < length sizes.now }
    requires alike { AreAlike sizes.now }
    ensures { result ≡ are_open_of sizes.now }
{
    sizes[0] == 0
}

/// What a reader of this port of a block sees.
fn share_at(kind: &Kind, port: u32) -> Share
    requires port { 1 ≤ port }
    requires fits { IsPortOf (shape_of kind.now) port }
    ensures { result ≡ share_at_shape (shape_of kind.now) port }
{
    match kind.shape() {
        Shape::Parted { sizes } => part_at(sizes, port - 1),
        Shape::Elementwise | Shape::Joined { .. } | Shape::Single => Share::Whole,
    }
}

/// The part at a place, from 0.
fn part_at(sizes: &[u32], place: u32) -> Share
    requires there { place < length sizes.now }
    requires few { length sizes.now < 2 ^ 32 }
    requires alike { AreAlike sizes.now }
    ensures { result ≡ part_of sizes.now place }
{
    if are_all_open(sizes) {
        Share::Even {
            parts: sizes.len() as u32,
            place,
        }
    } else {
        Share::Fixed {
            size: sizes[place as usize],
        }
    }
}

/// What each edge shows its reader.
fn source_of(blocks: &[Block], edge: Edge) -> Source
    requires from { edge.from < length blocks.now }
    requires port { 1 ≤ edge.from_port }
    requires fits { (block : Block) → slice_get blocks.now edge.from ≡ Some block →
        IsPortOf (shape_of block.kind) edge.from_port }
    ensures { result ≡ source_of_edge blocks.now edge }
{
    Source {
        block: edge.from,
        share: share_at(&blocks[edge.from as usize].kind, edge.from_port),
    }
}

/// Puts what each edge shows into the row of its reader, and the readers of each block, itself among
/// them, into the row of the block.
fn put_links(
    blocks: &[Block],
    edges: &[Edge],
    sources: &mut Vec<Sequence<Source>>,
    readers: &mut Vec<Sizes>,
) -> Result<(), OutOfMemory>
    requires few { length blocks.now < 2 ^ 32 }
    requires can { CanLink blocks.now edges.now }
    requires sources { sources.old.items ≡ replicate (length blocks.now) [] }
    requires readers { readers.old.items ≡ replicate (length blocks.now) [] }
    ensures sources { OnOk result (Gathered (length blocks.now)
        (source_of_edge blocks.now) edges.now sources.new.items) }
    ensures readers { OnOk result
        (Known (length blocks.now) (length blocks.now) edges.now readers.new.items) }
{
    for edge in edges {
        push_at(sources, edge.to, source_of(blocks, *edge))?;
        push_at(readers, edge.from, edge.to)?;
    }
    for place in 0..blocks.len() {
        push_at(readers, place as u32, place as u32)?;
    }
    Ok(())
}

/// The blocks of a diagram as the rounds see them.
pub fn width_round(alloc: Global, diagram: &Diagram) -> Result<WidthRound<'_>, OutOfMemory>
    requires few { length diagram.now.blocks < 2 ^ 32 }
    requires can { CanLink diagram.now.blocks diagram.now.edges }
    ensures size { IfOk result (λ round. length round.sources ≡ length diagram.now.blocks) }
    ensures mirrors { IfOk result
        (λ round. Mirrors diagram.now (all_forms round.blocks.now) round.sources) }
{
    let blocks = diagram.blocks.as_slice();
    let mut sources: Vec<Sequence<Source>> = empty_rows(alloc, blocks.len())?;
    let mut readers: Vec<Sizes> = empty_rows(alloc, blocks.len())?;
    put_links(blocks, diagram.edges.as_slice(), &mut sources, &mut readers)?;
    Ok(WidthRound {
        blocks,
        sources: Sequence::from_vec(sources),
        readers: Sequence::from_vec(readers),
    })
}
