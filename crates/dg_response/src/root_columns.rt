ghost use Rattle.std.specs.Prelude.{◌≡◌, ◌<◌, ℕ, IfOk, Some, length, map, slice_get};
ghost use Rattle.dg_model.specs.Attributes.{attributes_of};
ghost use Rattle.dg_response.specs.Response.{input_columns, output_columns};
ghost use Rattle.dg_response.specs.inner.Columns.{column_at};

use dg_model::Checked;
use dg_tables::{input_blocks, operations_prepare, output_blocks};
use fx_io::OutOfMemory;
use fx_tables::{Column, Columns};
use std::alloc::Global;

/// The columns of a diagram's stimulus and response.
#[derive(Drop)]
pub struct RootColumns {
    /// One for each root input element, in order of ports and elements.
    pub inputs: Columns,
    /// One for each root output element, in order of ports and elements.
    pub outputs: Columns,
}

impl RootColumns {
    /// Frees the columns, so that crates above needn't prove how.
    pub fn discard(self) {
        drop(self);
    }
}

/// The column of each element of a root port.
fn column(checked: &Checked, block: u32) -> Column
    requires { block < length checked.now.diagram.blocks }
    ensures { result ≡ column_at (attributes_of checked.now.diagram) block }
{
    checked.keeps_rules();
    operations_prepare();
    let kind = checked.result(block);
    Column {
        low: kind.lowest(),
        high: kind.highest(),
        period: checked.period(block).unwrap_or(1),
    }
}

/// The columns of elements of these blocks.
fn columns_of(alloc: Global, checked: &Checked, blocks: &[u32]) -> Result<Columns, OutOfMemory>
    requires { (place block : ℕ) → slice_get blocks.now place ≡ Some block
        → block < length checked.now.diagram.blocks }
    ensures { IfOk result (λ columns.
        columns ≡ map (column_at (attributes_of checked.now.diagram)) blocks.now) }
{
    let mut columns = Columns::new(alloc);
    for block in blocks {
        columns.push(column(checked, *block))?;
    }
    Ok(columns)
}

/// The columns of a diagram's root input and output elements (own).
///
/// # Errors
/// Want of memory.
pub fn columns(alloc: Global, checked: &Checked) -> Result<RootColumns, OutOfMemory>
    ensures inputs { IfOk result (λ columns. columns.inputs ≡ input_columns checked.now.diagram) }
    ensures outputs { IfOk result (λ columns. columns.outputs
        ≡ output_columns checked.now.diagram) }
{
    checked.keeps_rules();
    dg_model::root_elements_are_listed();
    let read = input_blocks(alloc, checked)?;
    let inputs = columns_of(alloc, checked, read.as_slice())?;
    let shown = output_blocks(alloc, checked)?;
    let outputs = columns_of(alloc, checked, shown.as_slice())?;
    Ok(RootColumns { inputs, outputs })
}
