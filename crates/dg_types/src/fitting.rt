ghost use Rattle.std.specs.Prelude.{◌≡◌, ◌^◌, ◌-◌, min, sum, slice_index_or};
ghost use Rattle.dg_model.specs.Library.{row_of};
ghost use Rattle.dg_types.specs.inner.WidthShapes.{shape_of};
ghost use Rattle.dg_types.specs.inner.Tests as test;

use crate::kinds::are_open;
use dg_model::{Block, Kind, Shape};

/// The most elements of a signal.
const WIDEST: u32 = 1024;

/// Whether something so wide or so long serves each of so many elements: one is repeated.
fn is_repeated(own: u32, width: usize) -> bool
    ensures { result ≡ test.is_repeated own width }
{
    width == 1 || width == own as usize
}

/// Whether signals of these widths serve each of so many elements.
fn are_repeated(own: u32, widths: &[u32]) -> bool
    ensures { result ≡ test.are_repeated own widths.now }
{
    widths.iter().all(|width| *width == 1 || *width == own)
}

/// The first entry of a row, 0 where it is empty.
pub fn first_of(row: &[u32]) -> u32
    ensures { result ≡ slice_index_or row.now 0 0 }
{
    match row.first() {
        Some(width) => *width,
        None => 0,
    }
}

/// The entries of a row together, saturating.
pub fn total(row: &[u32]) -> u64
    ensures { result ≡ min (2 ^ 64 - 1) (sum row.now) }
{
    let mut total: u64 = 0;
    for width in row {
        total = total.saturating_add(u64::from(*width));
    }
    total
}

/// Whether the inputs have these sizes, where there are sizes.
fn has_sizes(sizes: &[u32], inputs: &[u32]) -> bool
    ensures { result ≡ test.has_sizes sizes.now inputs.now }
{
    sizes.is_empty() || inputs == sizes
}

/// Whether the outputs of a Demux have their sizes and are together as wide as its input.
fn is_divided(sizes: &[u32], outputs: &[u32], inputs: &[u32]) -> bool
    ensures { result ≡ test.is_divided sizes.now outputs.now inputs.now }
{
    (are_open(sizes) || outputs == sizes) && u64::from(first_of(inputs)) == total(outputs)
}

/// Whether the inputs of a block agree with the widths at its outputs.
fn agrees(kind: &Kind, outputs: &[u32], inputs: &[u32]) -> bool
    ensures { result ≡ test.agrees (shape_of kind.now) outputs.now inputs.now }
{
    match kind.shape() {
        Shape::Elementwise => are_repeated(first_of(outputs), inputs),
        Shape::Joined { sizes } => has_sizes(sizes, inputs),
        Shape::Parted { sizes } => is_divided(sizes, outputs, inputs),
        Shape::Single => true,
    }
}

/// Whether the list of a block, if it has one, serves each of so many elements.
fn lists_fit(kind: &Kind, own: u32) -> bool
    ensures { result ≡ test.lists_fit own (row_of kind.now).signal.lists }
{
    match kind.list() {
        Some(list) => is_repeated(own, list.len()),
        None => true,
    }
}

/// Whether the width is the declared one, where one is declared.
fn is_declared(declared: usize, own: u32) -> bool
    ensures { result ≡ test.is_declared declared own }
{
    declared == 0 || own as usize == declared
}

/// Whether no signal is too wide.
fn are_small(widths: &[u32]) -> bool
    ensures { result ≡ test.are_small widths.now }
{
    widths.iter().all(|width| *width <= WIDEST)
}

/// Whether the outputs of a block, if it has any, are not too wide.
fn is_within(count: u32, outputs: &[u32]) -> bool
    ensures { result ≡ test.is_within count outputs.now }
{
    count == 0 || are_small(outputs)
}

/// Whether the inputs and the parameters of a block agree with its widths.
fn fits(kind: &Kind, outputs: &[u32], inputs: &[u32]) -> bool
    ensures { result ≡ test.fits kind.now outputs.now inputs.now }
{
    let own = first_of(outputs);
    agrees(kind, outputs, inputs)
        && (lists_fit(kind, own) && is_declared(kind.declared_width(), own))
}

/// Whether a block of these widths, after one more round and at its inputs, keeps the rule.
pub fn keeps(block: &Block, outputs: &[u32], again: &[u32], inputs: &[u32]) -> bool
    ensures { result ≡ test.keeps block.now outputs.now again.now inputs.now }
{
    again == outputs && (is_within(block.outputs, outputs) && fits(&block.kind, outputs, inputs))
}
