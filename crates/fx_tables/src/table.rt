ghost use Rattle.std.specs.Prelude.{◌≡◌, ◌+◌, ◌*◌, ◌<◌, length, slice_get};

use fx_io::{Cells, Sequence};
use std::fmt::{self, Display, Formatter, Write};
use thiserror::Error;

/// What one field of each line holds: an element of an input or an output (own).
#[derive(Clone, Copy)]
pub struct Column {
    /// The least stored integer.
    pub low: i128,
    /// The greatest stored integer.
    pub high: i128,
    /// The base samples from one number to the next, at least 1; the first stands at sample 0.
    pub period: u32,
}

/// The columns of a table from left to right.
pub type Columns = Sequence<Column>;

/// The numbers of a table, line by line (own). A cell where no number stands is 0.
#[derive(Drop)]
pub struct Rows {
    /// How many lines there are, one per base sample.
    pub lines: u64,
    /// How many cells each line has.
    pub columns: u32,
    /// The cells, line after line.
    pub cells: Cells,
    ghost full: { length cells ≡ lines * columns },
}

impl Rows {
    /// How many lines there are.
    pub fn count(&self) -> u64
        ensures { result ≡ self.now.lines }
    {
        self.lines
    }

    /// Frees the numbers, so that crates above needn't prove how.
    pub fn discard(self) {
        drop(self);
    }

    /// The cell of a line and a column, both from 0.
    pub fn get(&self, row: u64, column: u32) -> i128
        requires row_is_there { row < self.now.lines }
        requires column_is_there { column < self.now.columns }
        ensures { slice_get self.now.cells (row * self.now.columns + column) ≡ Some result }
    {
        self.cells.as_slice()[row as usize * self.columns as usize + column as usize]
    }
}

/// Why a text is no table, or no plan (own).
#[derive(Clone, Copy, Debug, Error)]
pub enum TableFault {
    /// A line, from 1, is bad; it is the first.
    #[error("line {line}: {cause}")]
    Bad {
        /// The line, from 1.
        line: u64,
        /// The first cause in this line.
        cause: TableCause,
    },
    /// Memory is wanting.
    #[error("out of memory")]
    OutOfMemory,
}

/// What is wrong with a line (own).
#[derive(Clone, Copy, Debug)]
pub enum TableCause {
    /// The lines up to this one, times the fields of a line, are above 50,000,000.
    TooManyRows,
    /// The line has not one field per column.
    FieldCount,
    /// A field is neither `-` nor a minus that may lack and 1 to 64 digits.
    NotWhole,
    /// A number is outside the range of its column.
    OutOfRange,
    /// A field is `-` at a sample where its column has a number.
    DashAtHit,
    /// A number stands at a sample where its column has none.
    NumberOffHit,
    /// A line of a plan has no form, or says again what an earlier line says.
    PlanLine,
}

impl Display for TableCause {
    fn fmt<W: Write>(&self, f: &mut Formatter<W>) -> fmt::Result {
        f.write_str(match self {
            TableCause::TooManyRows => "too many rows",
            TableCause::FieldCount => "field count",
            TableCause::NotWhole => "not a whole number",
            TableCause::OutOfRange => "out of range",
            TableCause::DashAtHit => "dash at a hit",
            TableCause::NumberOffHit => "number off a hit",
            TableCause::PlanLine => "plan line",
        })
    }
}

impl From<fx_io::OutOfMemory> for TableFault {
    ghost use Rattle.fx_tables.specs.declared.table.TableFault.TheVariants.{OutOfMemory};

    ghost from_gives = { λ _ fault. fault ≡ OutOfMemory };

    fn from(_refused: fx_io::OutOfMemory) -> TableFault {
        TableFault::OutOfMemory
    }
}
