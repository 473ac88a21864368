ghost use Rattle.std.specs.Prelude.{◌≡◌, ℕ, ◌^◌, ◌<◌, Some, slice_get, IfOk, OnOk};
ghost use Rattle.dg_model.specs.declared.diagram.Block.{Block};
ghost use Rattle.dg_types.specs.inner.WidthShapes.{shape_of, declared_width as declared_width_of, first_held as first_held_of, all_first as all_first_of};
ghost use Rattle.dg_types.specs.inner.Build.{all_forms};
ghost use Rattle.dg_types.specs.inner.WidthScan.{CanBeScanned, IsScan};

use crate::linked::WidthRound;
use crate::rows::{input_rows, put_rows};
use dg_model::{Block, Diagram, Kind, Shape};
use fx_io::{OutOfMemory, PortSizes};
use std::alloc::Global;

/// What a block of this kind holds before the first round.
fn first_held(kind: &Kind) -> u32
    requires { declared_width_of kind.now < 2 ^ 32 }
    ensures { result ≡ first_held_of (shape_of kind.now) (declared_width_of kind.now) }
{
    match kind.shape() {
        Shape::Elementwise => kind.declared_width().max(1) as u32,
        Shape::Joined { .. } | Shape::Single => 1,
        Shape::Parted { .. } => 0,
    }
}

/// What the blocks hold before the first round.
fn all_first(alloc: Global, blocks: &[Block]) -> Result<Vec<u32>, OutOfMemory>
    requires { (k : ℕ) (block : Block) → slice_get blocks.now k ≡ Some block →
        declared_width_of block.kind < 2 ^ 32 }
    ensures { IfOk result (λ first. first.items ≡ all_first_of blocks.now) }
{
    let mut first: Vec<u32> = Vec::new(alloc);
    for block in blocks {
        first.push(first_held(&block.kind))?;
    }
    Ok(first)
}

/// The widths of a diagram, and what is looked at to tell whether they keep the rule.
#[derive(Drop)]
pub struct Scan {
    /// The widths at the output ports of each block.
    pub widths: PortSizes,
    /// Those after one more round.
    pub again: PortSizes,
    /// The widths at the input ports of each block.
    pub inputs: PortSizes,
}

/// Works out the rounds of a diagram that is linked so, and puts what they give.
pub fn put_scan(
    alloc: Global,
    diagram: &Diagram,
    round: &WidthRound<'_>,
    scan: &mut Scan,
) -> Result<(), OutOfMemory>
    requires { CanBeScanned diagram.now (all_forms round.now.blocks.now) round.now.sources
        scan.old }
    ensures { OnOk result (IsScan diagram.now scan.new) }
{
    let blocks = diagram.blocks.as_slice();
    let first = all_first(alloc, blocks)?;
    let held = dg_waves::after_rounds(alloc, round, first, blocks.len() as u32)?;
    put_rows(alloc, blocks, held.as_slice(), &mut scan.widths)?;
    let later = dg_waves::after_rounds(alloc, round, held, 1)?;
    put_rows(alloc, blocks, later.as_slice(), &mut scan.again)?;
    let inputs = input_rows(alloc, diagram.edges.as_slice(), scan.widths.as_slice())?;
    scan.inputs = inputs;
    Ok(())
}
