//! A checked diagram as a list of cells in its order, one for each entry that a sample has.
use dg_model::{FxTypes, Op};
use dg_tables::{Place, Places};
use fx_io::{Flags, Sequence, Sizes};
use fx_type::{FxType, Rounding};

/// An operation with the cells of its inputs: where they begin among the arguments of the program, and
/// how many there are. Its signs stand likewise.
#[derive(Clone, Copy)]
pub struct Work {
    pub op: Op,
    pub first: u32,
    pub count: u32,
    pub first_sign: u32,
    pub signs: u32,
    pub result: FxType,
    pub rounding: Rounding,
    pub saturate: bool,
}

/// How the value of a cell comes about at a hit. Other cells are named by their places in the list.
#[derive(Clone, Copy)]
pub enum Rule {
    /// The number of the stimulus in a column.
    Input {
        column: usize,
    },
    /// Always this one.
    Fixed {
        value: i128,
    },
    /// That of another cell.
    Same {
        from: u32,
    },
    /// What an operation gives.
    Works {
        work: Work,
    },
    /// Whether some of these cells is above 0.
    Above {
        first: u32,
        count: u32,
    },
    /// A value so much older than the latest that is kept, or else `initial`.
    Past {
        memory: u32,
        age: u32,
        initial: i128,
    },
    /// The value kept before the last one up to the sample, where one is kept in each hit of the period.
    Slower {
        memory: u32,
        period: Option<u32>,
        initial: i128,
    },
    /// That of another cell where the control is on, else the latest kept.
    Held {
        memory: u32,
        from: u32,
        control: u32,
        initial: i128,
    },
    /// That of another cell where the control is on, else `initial`.
    Reset {
        from: u32,
        control: u32,
        initial: i128,
    },
}

/// How an entry of the table is worked out in each sample.
#[derive(Clone, Copy)]
pub struct Cell {
    pub period: Option<u32>,
    pub rule: Rule,
}

/// What keeps values of a cell: in each hit of the period, where the control is on. Where it is off, a
/// memory with `reset` forgets all.
#[derive(Clone, Copy)]
pub struct Memory {
    /// The block and element for which it keeps them.
    pub place: Place,
    pub from: u32,
    pub period: Option<u32>,
    pub control: Option<u32>,
    pub reset: bool,
    /// How many values it keeps.
    pub room: u32,
}

/// What a simulator does in each sample.
#[derive(Drop)]
pub struct Program {
    /// The entries that a sample has, each after those whose values it needs.
    pub places: Places,
    /// How each of them is worked out.
    pub cells: Cells,
    /// The cells that rules look at.
    pub args: Sizes,
    /// The types of these, one for each.
    pub types: FxTypes,
    /// The signs of Sums.
    pub signs: Flags,
    pub memories: Memories,
    /// The cells of the root output elements.
    pub outputs: Sizes,
}

pub type Cells = Sequence<Cell>;

pub type Memories = Sequence<Memory>;
