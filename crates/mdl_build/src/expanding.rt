//! The blocks of a model in which each filter is taken apart.
ghost use Rattle.std.specs.Prelude.{◌≡◌, ◌<◌, ◌+◌, ◌*◌, ◌++◌, ◌^◌, [], length, map, option_map, Some, All, IfOk, OnOk};
ghost use Rattle.std.specs.Option.{ForSome};
ghost use Rattle.fx_type.specs.declared.decimal.Decimal.{Decimal};
ghost use Rattle.fir_block.specs.Expanded.{IsFir};
ghost use Rattle.mdl_build.specs.Expanded.{inner_part, inner_block as inner_block_of, inner_blocks, inner_line, filling, filling_lines, moved, moved_block, moved_line, with_filling, expanded_blocks, expanded_lines};
ghost use Rattle.mdl_build.specs.inner.Sketch.{IsPlaced, AreNumbersOf};

use dg_model::{
    Block, Edge, Nested, NestedBlock, NestedBlocks, NestedLine, NestedLines, Part, Target,
};
use fir_block::{Expansion, Fir, FirBlock, FirBlocks, expand};
use fx_io::{OutOfMemory, Sequence};
use std::alloc::Global;

/// A block as it is drawn (own).
#[derive(Drop)]
pub struct DrawnBlock {
    /// What it is. A filter is a subsystem.
    pub block: NestedBlock,
    /// The filter that the subsystem stands for.
    pub filter: Option<Fir>,
}

/// The blocks of all Systems in file order, as they are drawn.
pub type DrawnBlocks = Sequence<DrawnBlock>;

/// The part of a block of a filter, by its number among so many of them.
fn inner_part(count: usize, number: usize, block: Block) -> Part
    requires { number < 2 ^ 32 }
    ensures { result ≡ inner_part count number block }
{
    if number == 0 {
        Part::In(block, 1)
    } else if number + 1 == count {
        Part::Out(block, 1)
    } else {
        Part::Plain(block)
    }
}

/// A block of the filter of this number, by its own number among so many of them.
fn inner_block(place: u32, count: usize, number: usize, inner: FirBlock) -> NestedBlock
    requires { number < 2 ^ 32 }
    ensures { result ≡ inner_block_of place count number inner }
{
    NestedBlock {
        name: inner.name,
        parent: Some(place),
        part: inner_part(count, number, inner.block),
    }
}

/// Puts the blocks of a filter, which is the subsystem of this number.
fn put_inner(blocks: &mut NestedBlocks, place: u32, inner: FirBlocks) -> Result<(), OutOfMemory>
    requires { length inner < 2 ^ 32 }
    ensures { OnOk result (blocks.new
        ≡ blocks.old ++ inner_blocks place (length inner) 0 inner) }
{
    let inner = inner.into_vec();
    let count = inner.len();
    let mut number = 0;
    let mut left = inner.into_iter();
    while let Some(next) = left.next() {
        blocks.push(inner_block(place, count, number, next))?;
        number += 1;
    }
    Ok(())
}

/// A line of a filter.
fn inner_line(edge: &Edge) -> NestedLine
    ensures { result ≡ inner_line edge.now }
{
    NestedLine {
        from: edge.from,
        from_port: edge.from_port,
        to: edge.to,
        target: Target::Port(edge.to_port),
    }
}

/// Puts the lines of a filter.
fn put_inner_lines(lines: &mut NestedLines, edges: &[Edge]) -> Result<(), OutOfMemory>
    ensures { OnOk result (lines.new ≡ lines.old ++ map inner_line edges.now) }
{
    for edge in edges {
        lines.push(inner_line(edge))?;
    }
    Ok(())
}

/// Puts the blocks and lines of a filter, which is the subsystem of this number.
fn put_filter(
    alloc: Global,
    nested: &mut Nested,
    place: u32,
    filter: &Fir,
) -> Result<(), OutOfMemory>
    requires fir { IsFir filter.now }
    requires room { place + 2 * length filter.now.coefficients + 2 < 2 ^ 32 }
    ensures blocks { OnOk result ((other : Decimal)
        → nested.new.blocks ≡ nested.old.blocks ++ filling other place (Some filter.now)) }
    ensures lines { OnOk result (nested.new.lines
        ≡ nested.old.lines ++ filling_lines place (Some filter.now)) }
{
    fir_block::blocks_are_counted();
    let Expansion { blocks, edges } = expand(alloc, filter, place)?;
    put_inner_lines(&mut nested.lines, edges.as_slice())?;
    put_inner(&mut nested.blocks, place, blocks)
}

/// Puts what the block of this number stands for.
fn put_filling(
    alloc: Global,
    nested: &mut Nested,
    place: u32,
    filter: Option<Fir>,
) -> Result<(), OutOfMemory>
    requires few { place < 2 ^ 31 }
    requires fir { ForSome filter IsFir }
    ensures blocks { OnOk result ((other : Decimal)
        → nested.new.blocks ≡ nested.old.blocks ++ filling other place filter) }
    ensures lines { OnOk result (nested.new.lines
        ≡ nested.old.lines ++ filling_lines place filter) }
{
    let Some(filter) = filter else {
        return Ok(());
    };
    let put = put_filter(alloc, nested, place, &filter);
    drop(filter);
    put
}

/// The number of a subsystem in place of that as it is drawn.
fn moved(numbers: &[u32], parent: Option<u32>) -> Option<u32>
    requires { ForSome parent (λ number. number < length numbers.now) }
    ensures { result ≡ option_map (moved numbers.now) parent }
{
    match parent {
        None => None,
        Some(number) => Some(numbers[number as usize]),
    }
}

/// A block whose subsystem has its number.
fn moved_block(numbers: &[u32], block: NestedBlock) -> NestedBlock
    requires { ForSome block.parent (λ number. number < length numbers.now) }
    ensures { result ≡ moved_block numbers.now block }
{
    NestedBlock {
        parent: moved(numbers, block.parent),
        ..block
    }
}

/// Puts a block, which gets this number, and what it stands for.
fn put_drawn(
    alloc: Global,
    nested: &mut Nested,
    numbers: &[u32],
    place: u32,
    drawn: DrawnBlock,
) -> Result<(), OutOfMemory>
    requires few { place < 2 ^ 31 }
    requires placed { IsPlaced numbers.now drawn }
    ensures blocks { OnOk result ((other : Decimal)
        → nested.new.blocks ≡ nested.old.blocks ++ with_filling other numbers.now (place, drawn)) }
    ensures lines { OnOk result (nested.new.lines
        ≡ nested.old.lines ++ filling_lines place drawn.filter) }
{
    let DrawnBlock { block, filter } = drawn;
    nested.blocks.push(moved_block(numbers, block))?;
    put_filling(alloc, nested, place, filter)
}

/// A line between blocks of these numbers.
fn moved_line(numbers: &[u32], line: &NestedLine) -> NestedLine
    requires from { line.now.from < length numbers.now }
    requires to { line.now.to < length numbers.now }
    ensures { result ≡ moved_line numbers.now line.now }
{
    NestedLine {
        from: numbers[line.from as usize],
        to: numbers[line.to as usize],
        ..*line
    }
}

/// Puts lines between blocks of these numbers.
fn put_moved(
    lines: &mut NestedLines,
    numbers: &[u32],
    drawn: &[NestedLine],
) -> Result<(), OutOfMemory>
    requires { All (λ line. (line.from < length numbers.now) × (line.to < length numbers.now))
        drawn.now }
    ensures { OnOk result (lines.new ≡ lines.old ++ map (moved_line numbers.now) drawn.now) }
{
    for line in drawn {
        lines.push(moved_line(numbers, line))?;
    }
    Ok(())
}

/// Puts the blocks and lines of a model, each of which has its number.
pub fn put_expanded(
    alloc: Global,
    nested: &mut Nested,
    numbers: &[u32],
    blocks: DrawnBlocks,
    lines: &[NestedLine],
) -> Result<(), OutOfMemory>
    requires no_blocks { nested.old.blocks ≡ [] }
    requires no_lines { nested.old.lines ≡ [] }
    requires numbers { AreNumbersOf numbers.now blocks lines.now }
    ensures blocks { OnOk result ((other : Decimal)
        → nested.new.blocks ≡ expanded_blocks other numbers.now blocks) }
    ensures lines { OnOk result
        (nested.new.lines ≡ expanded_lines numbers.now blocks lines.now) }
{
    put_moved(&mut nested.lines, numbers, lines)?;
    let mut number = 0;
    let mut left = blocks.into_vec().into_iter();
    while let Some(drawn) = left.next() {
        put_drawn(alloc, nested, numbers, numbers[number], drawn)?;
        number += 1;
    }
    Ok(())
}
