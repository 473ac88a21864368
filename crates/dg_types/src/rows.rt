ghost use Rattle.std.specs.Prelude.{◌≡◌, ◌<◌, ◌≤◌, [], All, length, map, replicate, IfOk, OnOk};
ghost use Rattle.math_list.specs.Numbers.{numbers_from};
ghost use Rattle.dg_model.specs.KindRow.{Shape as ShapeOf};
ghost use Rattle.dg_model.specs.Limits.{longest_list};
ghost use Rattle.dg_model.specs.Widths.{share, most_width};
ghost use Rattle.dg_types.specs.inner.Build.{Gathered};
ghost use Rattle.dg_types.specs.inner.WidthShapes.{shape_of, outputs_of, shown};
ghost use Rattle.dg_types.specs.inner.Rows.{HasRow, width_of_edge};

use crate::kinds::are_open;
use crate::linked::part;
use dg_model::{Block, Edge, Kind, Shape};
use fx_io::{OutOfMemory, PortSizes, Sizes, empty_rows, push_at};
use std::alloc::Global;

/// A row of one width, so many times.
fn repeated(alloc: Global, width: u32, count: usize) -> Result<Sizes, OutOfMemory>
    ensures { IfOk result (λ row. row ≡ replicate count width) }
{
    Ok(Sizes::from_vec(vec![in alloc; width; count]?))
}

/// The parts of a width, as even as can be.
fn shares(alloc: Global, width: u32, parts: u32) -> Result<Sizes, OutOfMemory>
    requires { width ≤ most_width }
    ensures { IfOk result (λ row. row ≡ map (share width parts) (numbers_from 0 parts)) }
{
    let mut row = Sizes::new(alloc);
    for place in 0..parts {
        row.push(part(width, parts, place))?;
    }
    Ok(row)
}

/// The widths at the outputs of a Demux of these sizes that holds this.
fn parts_of(alloc: Global, sizes: &[u32], held: u32) -> Result<Sizes, OutOfMemory>
    requires few { length sizes.now ≤ longest_list }
    requires small { held ≤ 1026 }
    ensures { IfOk result (λ row. row ≡ outputs_of (ShapeOf.Parted sizes.now) held) }
{
    if held == 0 {
        repeated(alloc, 1, sizes.len())
    } else if are_open(sizes) {
        shares(alloc, held - 1, sizes.len() as u32)
    } else {
        Ok(Sizes::from_vec(Vec::from_slice(alloc, sizes)?))
    }
}

/// The widths at the outputs of a block of this kind that holds this.
fn outputs(alloc: Global, kind: &Kind, held: u32) -> Result<Sizes, OutOfMemory>
    requires row { HasRow (shape_of kind.now) }
    requires small { held ≤ 1026 }
    ensures { IfOk result (λ row. row ≡ outputs_of (shape_of kind.now) held) }
{
    match kind.shape() {
        Shape::Parted { sizes } => parts_of(alloc, sizes, held),
        Shape::Elementwise | Shape::Joined { .. } | Shape::Single => repeated(alloc, held, 1),
    }
}

/// Puts the widths at the outputs of blocks that hold these.
pub fn put_rows(
    alloc: Global,
    blocks: &[Block],
    held: &[u32],
    rows: &mut PortSizes,
) -> Result<(), OutOfMemory>
    requires size { length held.now ≡ length blocks.now }
    requires few { All (λ block. HasRow (shape_of block.kind)) blocks.now }
    requires small { All (λ value. value ≤ 1026) held.now }
    requires none { rows.old ≡ [] }
    ensures { OnOk result (rows.new ≡ shown blocks.now held.now) }
{
    for place in 0..blocks.len() {
        let row = outputs(alloc, &blocks[place].kind, held[place])?;
        rows.push(row)?;
    }
    Ok(())
}

/// The width of the signal on an edge, 0 where its port isn't there.
pub fn edge_width(widths: &[Sizes], edge: Edge) -> u32
    requires { edge.from < length widths.now }
    ensures { result ≡ width_of_edge widths.now edge }
{
    let row = widths[edge.from as usize].as_slice();
    let place = edge.from_port.saturating_sub(1) as usize;
    if place < row.len() { row[place] } else { 0 }
}

/// The widths of the inputs of each block.
pub fn input_rows(alloc: Global, edges: &[Edge], widths: &[Sizes]) -> Result<PortSizes, OutOfMemory>
    requires from { All (λ edge. edge.from < length widths.now) edges.now }
    requires to { All (λ edge. edge.to < length widths.now) edges.now }
    ensures { IfOk result (λ rows.
        Gathered (length widths.now) (width_of_edge widths.now) edges.now rows) }
{
    let mut rows: Vec<Sizes> = empty_rows(alloc, widths.len())?;
    for edge in edges {
        let width = edge_width(widths, *edge);
        push_at(&mut rows, edge.to, width)?;
    }
    Ok(PortSizes::from_vec(rows))
}
