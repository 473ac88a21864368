ghost use Rattle.std.specs.Prelude.{◌≡◌, ◌<◌, ◌-◌, ◌^◌, ◌↔◌, true, min, All, length};
ghost use Rattle.dg_model.specs.Dimension.{IsBounded};
ghost use Rattle.dg_types.specs.inner.Elements.{outputs_from, delays_from, inputs_of, elements_of as elements_of_block, delayed as delayed_of};

use crate::fitting::{first_of, total};
use crate::rows::edge_width;
use dg_model::{Block, Diagram, Edge};
use fx_io::Sizes;

/// The most elements that all output ports, all input ports and all Delays with their lengths have.
const MOST_OUTPUTS: u64 = 200_000;

const MOST_INPUTS: u64 = 400_000;

const MOST_DELAYED: u64 = 4_000_000;

/// How many elements the output ports of a block have, saturating.
fn elements_of(block: &Block, row: &[u32]) -> u64
    ensures { result ≡ min (2 ^ 64 - 1) (elements_of_block block.now row.now) }
{
    if block.outputs == 0 { 0 } else { total(row) }
}

/// How many elements all input ports have, saturating.
fn all_inputs(edges: &[Edge], widths: &[Sizes]) -> u64
    requires { All (λ edge. edge.from < length widths.now) edges.now }
    ensures { result ≡ min (2 ^ 64 - 1) (inputs_of widths.now edges.now) }
{
    let mut total: u64 = 0;
    for edge in edges {
        total = total.saturating_add(u64::from(edge_width(widths, *edge)));
    }
    total
}

/// How many samples a block keeps of all of its elements, saturating.
fn delay_samples(block: &Block, row: &[u32]) -> u64
    ensures { result ≡ min (2 ^ 64 - 1) (delayed_of block.now row.now) }
{
    u64::from(block.kind.row().delay).saturating_mul(u64::from(first_of(row)))
}

/// How many elements all output ports have, and how many samples all Delays keep of all of their
/// elements, saturating.
fn all_kept(blocks: &[Block], widths: &[Sizes]) -> (u64, u64)
    requires { length widths.now ≡ length blocks.now }
    ensures outputs { result.0 ≡ min (2 ^ 64 - 1) (outputs_from widths.now 0 blocks.now) }
    ensures delayed { result.1 ≡ min (2 ^ 64 - 1) (delays_from widths.now 0 blocks.now) }
{
    let mut outputs: u64 = 0;
    let mut kept: u64 = 0;
    for place in 0..blocks.len() {
        let row = widths[place].as_slice();
        outputs = outputs.saturating_add(elements_of(&blocks[place], row));
        kept = kept.saturating_add(delay_samples(&blocks[place], row));
    }
    (outputs, kept)
}

/// Whether there are few enough elements.
pub fn is_bounded(diagram: &Diagram, widths: &[Sizes]) -> bool
    requires size { length widths.now ≡ length diagram.now.blocks }
    requires from { All (λ edge. edge.from < length widths.now) diagram.now.edges }
    ensures { (result ≡ true) ↔ IsBounded diagram.now widths.now }
{
    let (outputs, kept) = all_kept(diagram.blocks.as_slice(), widths);
    let inputs = all_inputs(diagram.edges.as_slice(), widths);
    outputs <= MOST_OUTPUTS && inputs <= MOST_INPUTS && kept <= MOST_DELAYED
}
