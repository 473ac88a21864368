//! The rules of a Mux and of a Demux: which element of an input they hand on.
ghost use Rattle.std.specs.Prelude.{◌≡◌, ◌≤◌, ◌<◌, ◌-◌, ◌^◌, ◌⊎◌, ℕ, suc, map, sum, List, Some, slice_get};
ghost use Rattle.math_list.specs.Numbers.{numbers_from};
ghost use Rattle.dg_model.specs.Attributes.{attributes_of};
ghost use Rattle.dg_model.specs.Signals.{Attributes};
ghost use Rattle.dg_model.specs.declared.diagram.Diagram.{Diagram};
ghost use Rattle.dg_model.specs.declared.diagram.Block.{Block};
ghost use Rattle.dg_model.specs.declared.kind.Kind.{Kind};
ghost use Rattle.dg_model.specs.Equation.{IsPart};
ghost use Rattle.dg_model.specs.Wires.{width_into, widths_into};
ghost use Rattle.dg_sim.specs.inner.Cursors.{AreCursors, IsInto, IsOut};
ghost use Rattle.dg_tables.specs.Finding.{AreLines};
ghost use Rattle.dg_sim.specs.inner.Turns.{IsMadeFor, IsTurnOf};

use crate::handing::hand_on;
use crate::program::{Program, Rule};
use crate::turn::Turn;
use dg_model::{Checked, Kind};
use dg_tables::{Starts, width_of_input, width_of_output};

/// How many elements the first ports of a block have together.
#[derive(Clone, Copy)]
pub struct Cursor {
    pub block: u32,
    pub ports: u32,
    pub before: u32,
}

/// Where the walks along the input ports of a Mux and along the output ports of a Demux stand.
#[derive(Clone, Copy)]
pub struct Cursors {
    pub into: Cursor,
    pub out: Cursor,
}

impl Cursors {
    /// Before the first ports of the first block.
    pub fn new() -> Cursors
        ensures { (diagram : Diagram) (attributes : Attributes)
            → AreCursors diagram attributes result }
    {
        let first = Cursor {
            block: 0,
            ports: 0,
            before: 0,
        };
        Cursors {
            into: first,
            out: first,
        }
    }
}

/// An element of what an input port offers, and how many elements the ports before it have.
#[derive(Clone, Copy)]
struct Part {
    port: u32,
    element: u32,
    before: u32,
}

/// The cursor itself where it stands in the block and not behind a port and an element, or else before
/// the first port.
fn start_cursor(cursor: Cursor, block: u32, ports: u32, element: u32) -> Cursor
    ensures block { result.block ≡ block }
    ensures ports { result.ports ≤ ports }
    ensures before { result.before ≤ element }
    ensures sums { (widths : ℕ → ℕ → ℕ)
        → cursor.before ≡ sum (map (widths cursor.block) (numbers_from 1 cursor.ports))
        → result.before ≡ sum (map (widths block) (numbers_from 1 result.ports)) }
{
    if cursor.block == block && cursor.ports <= ports && cursor.before <= element {
        cursor
    } else {
        Cursor {
            block,
            ports: 0,
            before: 0,
        }
    }
}

/// The input port of a Mux from which an element of its output comes, and the element's place there.
fn part_into(
    checked: &Checked,
    starts: &Starts,
    from: Cursor,
    block: u32,
    inputs: u32,
    element: u32,
) -> Part
    requires into { IsInto checked.now.diagram (attributes_of checked.now.diagram) from }
    requires lines { AreLines checked.now.diagram starts.now.lines.items }
    requires element { element < sum (widths_into checked.now.diagram
        (attributes_of checked.now.diagram) block inputs) }
    ensures { (signal : ℕ) × (result.port ≡ suc signal) × IsPart (widths_into
        checked.now.diagram (attributes_of checked.now.diagram) block inputs) element signal
        result.element × (result.before ≡ sum (map (width_into checked.now.diagram
        (attributes_of checked.now.diagram) block) (numbers_from 1 signal))) }
{
    let start = start_cursor(from, block, inputs, element);
    let mut signal = start.ports;
    let mut before = start.before;
    let mut width = width_of_input(checked, starts, block, signal + 1);
    while width <= element - before {
        before += width;
        signal += 1;
        width = width_of_input(checked, starts, block, signal + 1);
    }
    Part {
        port: signal + 1,
        element: element - before,
        before,
    }
}

/// How many elements the output ports of a block before one of them have.
fn width_before(checked: &Checked, from: Cursor, block: u32, port: u32) -> u32
    requires out { IsOut (attributes_of checked.now.diagram) from }
    requires block { (b : Block) × (slice_get checked.now.diagram.blocks block ≡ Some b)
        × (port ≤ b.outputs) × (sum (map ((attributes_of checked.now.diagram).width_at block)
        (numbers_from 1 b.outputs)) < 2 ^ 32) }
    requires from { 1 ≤ port }
    ensures { result ≡ sum (map ((attributes_of checked.now.diagram).width_at block)
        (numbers_from 1 (port - 1))) }
{
    let count = port - 1;
    let start = start_cursor(from, block, count, u32::MAX);
    let mut total = start.before;
    for i in start.ports..count {
        total += width_of_output(checked, block, i + 1);
    }
    total
}

/// The rule of a Mux or of a Demux: the element of an input that it hands on.
pub fn spread<'a>(cursors: &mut Cursors, program: &Program, turn: Turn<'a>) -> Rule
    requires kind { ((sizes : List ℕ) × (turn.block.now.kind ≡ Kind.Mux sizes))
        ⊎ ((sizes : List ℕ) × (turn.block.now.kind ≡ Kind.Demux sizes)) }
    requires turn { IsTurnOf turn program.now.places }
    requires cursors { AreCursors turn.checked.now.diagram
        (attributes_of turn.checked.now.diagram) cursors.old }
    ensures made { IsMadeFor turn.entry program.now program.now result }
    ensures cursors { AreCursors turn.entry.checked.now.diagram
        (attributes_of turn.entry.checked.now.diagram) cursors.new }
{
    let place = turn.place;
    match &turn.block.kind {
        Kind::Mux { .. } => {
            let part = part_into(
                turn.checked,
                turn.starts,
                cursors.into,
                place.block,
                turn.block.inputs,
                place.element,
            );
            cursors.into = Cursor {
                block: place.block,
                ports: part.port - 1,
                before: part.before,
            };
            hand_on(program, turn, part.port, part.element)
        }
        Kind::Demux { .. } => {
            let before = width_before(turn.checked, cursors.out, place.block, place.port);
            cursors.out = Cursor {
                block: place.block,
                ports: place.port - 1,
                before,
            };
            hand_on(program, turn, 1, before + place.element)
        }
        _ => unreachable!(),
    }
}
