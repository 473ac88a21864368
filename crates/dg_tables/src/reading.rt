//! Where the values come from that a block reads.
ghost use Rattle.std.specs.Prelude.{◌≡◌, ◌≤◌, ◌<◌, ℕ, Some, None, slice_get, slice_index_or};
ghost use Rattle.dg_model.specs.Attributes.{attributes_of};
ghost use Rattle.dg_model.specs.Wires.{driver_of, enters, width_into, type_into, period_into};
ghost use Rattle.dg_tables.specs.Entries.{IsEntry, Reads};
ghost use Rattle.dg_model.specs.Solves.{shown_ports, shown_width};
ghost use Rattle.dg_tables.specs.Finding.{AreLines, Finds, IsRead, IsBeforeReader, source_of};
ghost use Rattle.dg_model.specs.declared.diagram.Block.{Block};

use crate::entries::Place;
use crate::roots::output_number;
use dg_model::{Block, Checked, Edge};
use fx_type::FxType;

/// What finds the lines and the entries of a block.
#[derive(Drop)]
pub struct Starts {
    /// Where the lines into each block begin.
    pub lines: Vec<usize>,
    /// Where the ports of each block begin.
    pub ports: Vec<usize>,
    /// Where the entries of each port begin.
    pub entries: Vec<usize>,
}

/// A place that is written down; 0 past the last one.
fn place_of(list: &[usize], at: usize) -> usize
    ensures { result ≡ slice_index_or list.now at 0 }
{
    match list.get(at) {
        Some(place) => *place,
        None => 0,
    }
}

/// Whether a line is the one into this input port.
fn is_into(edge: Edge, block: u32, port: u32) -> bool
    ensures { result ≡ enters block port edge }
{
    edge.to == block && edge.to_port == port
}

/// The line into an input port, where there is such a port.
fn driver(checked: &Checked, starts: &Starts, block: u32, port: u32) -> Option<Edge>
    requires { AreLines checked.now.diagram starts.now.lines.items }
    ensures { result ≡ driver_of checked.now.diagram block port }
{
    checked.keeps_rules();
    let edges = checked.diagram().edges.as_slice();
    let at = place_of(starts.lines.as_slice(), block as usize)
        .saturating_add(port as usize)
        .saturating_sub(1);
    if at >= edges.len() {
        return None;
    }
    let edge = edges[at];
    if is_into(edge, block, port) {
        Some(edge)
    } else {
        None
    }
}

/// The width at the source of an input port; 0 where there is no such port.
pub fn width_of_input(checked: &Checked, starts: &Starts, block: u32, port: u32) -> u32
    requires { AreLines checked.now.diagram starts.now.lines.items }
    ensures { result ≡ width_into checked.now.diagram (attributes_of checked.now.diagram) block port }
{
    checked.keeps_rules();
    match driver(checked, starts, block, port) {
        Some(edge) => checked.width(edge.from, edge.from_port),
        None => 0,
    }
}

/// The width at an output port.
pub fn width_of_output(checked: &Checked, block: u32, port: u32) -> u32
    requires { (b : Block) × (slice_get checked.now.diagram.blocks block ≡ Some b) × (1 ≤ port)
        × (port ≤ b.outputs) }
    ensures { result ≡ (attributes_of checked.now.diagram).width_at block port }
{
    checked.keeps_rules();
    checked.width(block, port)
}

/// At how many ports the table shows a block.
pub fn ports_shown(block: &Block) -> u32
    ensures { result ≡ shown_ports block.now.kind block.now.outputs }
{
    match output_number(&block.kind) {
        Some(_) => 1,
        None => block.outputs,
    }
}

/// How many elements the table shows at a port of a block.
pub fn width_shown(checked: &Checked, starts: &Starts, one: &Block, block: u32, port: u32) -> u32
    requires lines { AreLines checked.now.diagram starts.now.lines.items }
    requires block { slice_get checked.now.diagram.blocks block ≡ Some one.now }
    requires from { 1 ≤ port }
    requires to { port ≤ shown_ports one.now.kind one.now.outputs }
    ensures { result ≡ shown_width checked.now.diagram (attributes_of checked.now.diagram)
        one.now.kind block port }
{
    match output_number(&one.kind) {
        Some(_) => width_of_input(checked, starts, block, 1),
        None => width_of_output(checked, block, port),
    }
}

/// The type of what an input port offers; Logical where there is no such port.
pub fn type_of_input(checked: &Checked, starts: &Starts, block: u32, port: u32) -> FxType
    requires { AreLines checked.now.diagram starts.now.lines.items }
    ensures { result ≡ type_into checked.now.diagram (attributes_of checked.now.diagram) block port }
{
    checked.keeps_rules();
    match driver(checked, starts, block, port) {
        Some(edge) => checked.result(edge.from),
        None => FxType::Logical,
    }
}

/// The period of the block that drives an input port; none where there is no such port.
pub fn period_of_input(checked: &Checked, starts: &Starts, block: u32, port: u32) -> Option<u32>
    requires { AreLines checked.now.diagram starts.now.lines.items }
    ensures { result ≡ period_into checked.now.diagram (attributes_of checked.now.diagram) block
        port }
{
    checked.keeps_rules();
    match driver(checked, starts, block, port) {
        Some(edge) => checked.period(edge.from),
        None => None,
    }
}

/// The entry that an input port offers to an element.
fn source(checked: &Checked, edge: Edge, element: u32) -> Place
    requires { (block port : ℕ) × (driver_of checked.now.diagram block port ≡ Some edge) }
    ensures { result ≡ source_of (attributes_of checked.now.diagram) edge element }
{
    checked.keeps_rules();
    let width = checked.width(edge.from, edge.from_port);
    Place {
        block: edge.from,
        port: edge.from_port,
        element: if width == 1 { 0 } else { element },
    }
}

/// The number of an entry in the list. A number below 2^32 is one of 32 bits.
pub fn look_up(checked: &Checked, starts: &Starts, places: &[Place], place: Place) -> u32
    requires finds { Finds checked.now starts.now places.now }
    requires entry { IsEntry checked.now.diagram (attributes_of checked.now.diagram) place }
    ensures { slice_get places.now result ≡ Some place }
{
    let _ = (checked.order().len(), places.len());
    let (ports, entries) = (starts.ports.as_slice(), starts.entries.as_slice());
    let first = place_of(ports, place.block as usize);
    let from = place_of(entries, first + (place.port - 1) as usize);
    (from + place.element as usize) as u32
}

/// The entry in the list that an input port offers to an element.
pub fn input(
    checked: &Checked,
    starts: &Starts,
    places: &[Place],
    block: u32,
    port: u32,
    element: u32,
) -> u32
    requires finds { Finds checked.now starts.now places.now }
    requires read { IsRead checked.now.diagram (attributes_of checked.now.diagram) block port
        element }
    ensures reads { Reads checked.now.diagram (attributes_of checked.now.diagram) places.now block
        port element result }
    ensures before { IsBeforeReader checked.now places.now block result }
{
    checked.keeps_rules();
    let Some(edge) = driver(checked, starts, block, port) else {
        unreachable!();
    };
    look_up(checked, starts, places, source(checked, edge, element))
}
