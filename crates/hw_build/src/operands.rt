//! The nets that ends of blocks are offered.
ghost use Rattle.std.specs.Prelude.{◌≡◌, ◌≤◌, Some, slice_get};
ghost use Rattle.dg_model.specs.Wires.{driver_of};
ghost use Rattle.hw_build.specs.inner.Operands.{enabled_by, is_line_before, line_number as line_number_of, net_in as net_in_of, offered_at};

use dg_model::{Block, Checked, Edge};
use fx_io::{Sequence, Sizes};

/// The nets of an end: the number of the first among those of all ends, and how many there are.
#[derive(Clone, Copy)]
pub struct Span {
    pub first: u32,
    pub count: u32,
}

/// Spans by their ends.
pub type Spans = Sequence<Span>;

/// The nets that all ends are offered.
#[derive(Drop)]
pub struct Operands {
    /// The nets, end by end.
    pub nets: Sizes,
    /// Those of the lines, in their order.
    pub lines: Spans,
    /// Those of what enables blocks, in their order: one, or none.
    pub controls: Spans,
}

/// Whether a line ends at a block before this one, or at a port of this one before this port.
fn stands_before(edge: &Edge, block: u32, port: u32) -> bool
    ensures { result ≡ is_line_before block port edge.now }
{
    edge.to < block || (edge.to == block && edge.to_port < port)
}

/// The number of the line into an input port, from 1, of a block.
fn line_number(checked: &Checked, block: u32, port: u32) -> usize
    ensures { result ≡ line_number_of checked.now.diagram block port }
{
    checked.keeps_rules();
    let edges = checked.diagram().edges.as_slice();
    edges.partition_point(
        |edge: &Edge| -> bool
            ensures { result ≡ is_line_before block port edge.now }
        { stands_before(edge, block, port) },
    )
}

/// The line into an input port, from 1, of a block.
pub fn line_into(checked: &Checked, block: u32, port: u32, one: &Block) -> Edge
    requires is { slice_get checked.now.diagram.blocks block ≡ Some one.now }
    requires from { 1 ≤ port }
    requires to { port ≤ one.now.inputs }
    ensures { driver_of checked.now.diagram block port ≡ Some result }
{
    checked.keeps_rules();
    let edges = checked.diagram().edges.as_slice();
    edges[line_number(checked, block, port)]
}

/// The net of an element of an end, past the last that of the last.
fn net_in(nets: &[u32], span: Span, element: u32) -> u32
    ensures { result ≡ net_in_of nets.now (Some span) element }
{
    let last = span.count.saturating_sub(1);
    let place = span.first as usize + element.min(last) as usize;
    match nets.get(place) {
        Some(net) => *net,
        None => 0,
    }
}

/// That of the end of a number.
fn net_of(nets: &[u32], spans: &[Span], end: usize, element: u32) -> u32
    ensures { result ≡ net_in_of nets.now (slice_get spans.now end) element }
{
    match spans.get(end) {
        Some(span) => net_in(nets, *span, element),
        None => 0,
    }
}

impl Operands {
    /// The net that an input port, from 1, of a block offers to an element.
    pub fn at(&self, checked: &Checked, block: u32, port: u32, element: u32) -> u32
        ensures { result ≡ offered_at checked.now.diagram self.now block port element }
    {
        let end = line_number(checked, block, port);
        net_of(self.nets.as_slice(), self.lines.as_slice(), end, element)
    }

    /// The net that enables a block.
    pub fn enable(&self, block: u32) -> u32
        ensures { result ≡ enabled_by self.now block }
    {
        net_of(
            self.nets.as_slice(),
            self.controls.as_slice(),
            block as usize,
            0,
        )
    }
}
