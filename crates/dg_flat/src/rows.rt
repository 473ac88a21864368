ghost use Rattle.std.specs.Prelude.{◌≡◌, ◌<◌, ◌≤◌, length, IfOk};
ghost use Rattle.dg_flat.specs.inner.Tables.{AreRows, IsCell};

use fx_io::OutOfMemory;
use std::alloc::Global;

/// Rows of different lengths that stand end to end in one table (own).
#[derive(Drop)]
pub struct Rows {
    /// How long each row is.
    pub lengths: Vec<u32>,
    /// The cell at which each row starts.
    pub starts: Vec<usize>,
    /// How many cells there are.
    pub cells: usize,
}

impl Rows {
    /// Rows of these lengths.
    pub fn of(alloc: Global, lengths: Vec<u32>) -> Result<Rows, OutOfMemory>
        requires { length lengths.items ≤ 20001 }
        ensures rows { IfOk result AreRows }
        ensures lengths { IfOk result (λ rows. rows.lengths.items ≡ lengths.items) }
    {
        let mut starts = Vec::with_capacity(alloc, lengths.len())?;
        let mut cells = 0;
        for length in &lengths {
            starts.push(cells)?;
            cells += *length as usize;
        }
        Ok(Rows {
            lengths,
            starts,
            cells,
        })
    }

    /// The cell of a number, from 1, in a row; none past the end of the row.
    pub fn cell(&self, row: usize, number: u32) -> Option<usize>
        requires rows { AreRows self.now }
        requires there { row < length self.now.lengths.items }
        ensures { IsCell self.now.lengths.items row number result }
    {
        if number == 0 || number > self.lengths[row] {
            None
        } else {
            Some(self.starts[row] + (number - 1) as usize)
        }
    }
}
