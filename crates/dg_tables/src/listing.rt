ghost use Rattle.std.specs.Prelude.{◌≡◌, IfOk, map};
ghost use Rattle.dg_model.specs.Attributes.{attributes_of};
ghost use Rattle.dg_model.specs.RootElements.{root_inputs, root_outputs};
ghost use Rattle.dg_tables.specs.Listing.{AreBlocksOf};

use crate::layout::lay_out;
use crate::roots::{Root, input_roots, output_roots};
use dg_model::Checked;
use fx_io::{OutOfMemory, Sizes};
use std::alloc::Global;

/// The block of each element.
fn blocks_of(alloc: Global, roots: &[Root]) -> Result<Sizes, OutOfMemory>
    ensures { IfOk result (λ blocks. blocks ≡ map (λ root. root.block) roots.now) }
{
    let mut blocks = Sizes::new(alloc);
    for root in roots {
        blocks.push(root.block)?;
    }
    Ok(blocks)
}

/// The block of each root input element, in order of ports and elements.
///
/// # Errors
/// Want of memory.
pub fn input_blocks(alloc: Global, checked: &Checked) -> Result<Sizes, OutOfMemory>
    ensures { IfOk result (AreBlocksOf
        (root_inputs checked.now.diagram (attributes_of checked.now.diagram))) }
{
    let roots = input_roots(alloc, checked)?;
    blocks_of(alloc, roots.as_slice())
}

/// The block of each root output element, in order of ports and elements.
///
/// # Errors
/// Want of memory.
pub fn output_blocks(alloc: Global, checked: &Checked) -> Result<Sizes, OutOfMemory>
    ensures { IfOk result (AreBlocksOf
        (root_outputs checked.now.diagram (attributes_of checked.now.diagram))) }
{
    let (starts, _places) = lay_out(alloc, checked)?;
    let roots = output_roots(alloc, checked, &starts)?;
    blocks_of(alloc, roots.as_slice())
}
