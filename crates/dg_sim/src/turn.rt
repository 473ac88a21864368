//! The entry whose rule is to be made.
ghost use Rattle.dg_model.specs.Attributes.{attributes_of};
ghost use Rattle.dg_tables.specs.Entries.{Reads};
ghost use Rattle.dg_tables.specs.Finding.{Finds, IsBeforeReader, IsRead};

use dg_model::{Block, Checked};
use dg_tables::{Place, Places, Starts, input};

/// An entry of a checked diagram, the number of its cell, and its block (own).
#[derive(Clone, Copy)]
pub struct Turn<'a> {
    pub checked: &'a Checked,
    pub starts: &'a Starts,
    pub cell: u32,
    pub place: Place,
    pub block: &'a Block,
}

/// The number of the entry that an input port of the block offers to an element.
pub fn offered_entry<'a>(turn: Turn<'a>, places: &Places, port: u32, element: u32) -> u32
    requires finds { Finds turn.checked.now turn.starts.now places.now }
    requires read { IsRead turn.checked.now.diagram (attributes_of turn.checked.now.diagram)
        turn.place.block port element }
    ensures reads { Reads turn.entry.checked.now.diagram
        (attributes_of turn.entry.checked.now.diagram) places.now turn.entry.place.block port
        element result }
    ensures before { IsBeforeReader turn.entry.checked.now places.now turn.entry.place.block
        result }
{
    input(
        turn.checked,
        turn.starts,
        places.as_slice(),
        turn.place.block,
        port,
        element,
    )
}
