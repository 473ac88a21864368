//! The numbers of a diagram's simulation.
ghost use Rattle.std.specs.Prelude.{◌≡◌, ◌<◌, ◌≤◌, ◌^◌, All, IfOk, length, true};
ghost use Rattle.dg_response.specs.Responding.{IsBefore};
ghost use Rattle.dg_response.specs.Response.{input_columns, output_columns};
ghost use Rattle.fx_tables.specs.Stimulus.{FitsColumns};

use crate::windows::sample_at;
use anyhow::{Error, Result};
use dg_model::Checked;
use dg_response::{Responding, RootColumns, columns};
use fx_tables::{Column, Rows, TableFault, read_rows};
use std::alloc::Global;

/// What a simulation takes and gives.
#[derive(Drop)]
pub struct Simulated {
    columns: RootColumns,
    /// The numbers of the inputs.
    rows: Rows,
    /// Those of the outputs, sample by sample.
    shown: Vec<i128>,
}

impl Simulated {
    /// How many samples there are.
    pub fn samples(&self) -> u64 {
        self.rows.count()
    }

    /// The numbers of all inputs at a clock.
    pub fn inputs_at(&self, alloc: Global, cycles: u32, clock: u64) -> Result<Vec<i128>> {
        let mut numbers = Vec::new(alloc);
        for (place, column) in self.columns.inputs.as_slice().iter().enumerate() {
            numbers.push(self.input_number(cycles, place, *column, clock))?;
        }
        Ok(numbers)
    }

    /// The number of an input at a clock. Behind the last sample it is the greatest.
    fn input_number(&self, cycles: u32, place: usize, column: Column, clock: u64) -> i128 {
        let Some(sample) = sample_at(cycles, column.period, 0, 0, clock) else {
            return column.high;
        };
        let columns = self.columns.inputs.as_slice().len();
        number_at(self.rows.cells.as_slice(), columns, sample, place).unwrap_or(column.high)
    }

    /// The number of an output at a sample, if there is such a sample.
    pub fn shown_at(&self, sample: u64, place: usize) -> Option<i128> {
        let columns = self.columns.outputs.as_slice().len();
        number_at(self.shown.as_slice(), columns, sample, place)
    }
}

/// The number of a sample and a column.
fn number_at(cells: &[i128], columns: usize, sample: u64, place: usize) -> Option<i128> {
    let at = (sample as usize).checked_mul(columns)?.checked_add(place)?;
    cells.get(at).copied()
}

/// The columns of a diagram, where each has a period.
fn columns_of(alloc: Global, checked: &Checked) -> Result<RootColumns>
    ensures inputs { IfOk result (λ columns. columns.inputs ≡ input_columns checked.now.diagram) }
    ensures outputs { IfOk result (λ columns. columns.outputs
        ≡ output_columns checked.now.diagram) }
    ensures periods { IfOk result (λ columns. All (λ column. 0 < column.period) columns.inputs) }
    ensures few { IfOk result (λ columns. length columns.inputs < 2 ^ 32) }
{
    let columns = columns(alloc, checked)?;
    if have_periods(columns.inputs.as_slice()) && are_few(columns.inputs.as_slice()) {
        Ok(columns)
    } else {
        Err(Error::msg("an input has no period"))
    }
}

/// Whether each column has a period above 0.
fn have_periods(columns: &[Column]) -> bool
    ensures { result ≡ true → All (λ column. 0 < column.period) columns.now }
{
    columns.iter().all(|column| column.period > 0)
}

/// Whether columns can be numbered by 32 bits.
fn are_few(columns: &[Column]) -> bool
    ensures { result ≡ true → length columns.now < 2 ^ 32 }
{
    (columns.len() as u64) < 4_294_967_296
}

/// The rows of a stimulus.
fn rows_of(alloc: Global, stimulus: &[u8], columns: &RootColumns) -> Result<Rows>
    requires periods { All (λ column. 0 < column.period) columns.now.inputs }
    requires few { length columns.now.inputs < 2 ^ 32 }
    ensures count { IfOk result (λ rows. rows.columns ≡ length columns.now.inputs) }
    ensures fits { IfOk result (FitsColumns columns.now.inputs) }
    ensures few { IfOk result (λ rows. rows.lines ≤ 50000000) }
{
    let outputs = columns.outputs.as_slice().len() as u64;
    match read_rows(alloc, stimulus, columns.inputs.as_slice(), outputs) {
        Ok(rows) => Ok(rows),
        Err(TableFault::Bad { .. }) => Err(Error::msg("a stimulus has a bad line")),
        Err(TableFault::OutOfMemory) => Err(Error::msg("out of memory")),
    }
}

/// Puts the numbers of the outputs of each sample behind one another.
fn put_samples(
    checked: &Checked,
    rows: &Rows,
    responding: &mut Responding,
    shown: &mut Vec<i128>,
) -> Result<()>
    requires { IsBefore checked.now rows.now responding.old 0 }
{
    for sample in 0..rows.count() {
        responding.step(checked, rows, sample);
        shown.extend_from_slice(responding.row())?;
    }
    Ok(())
}

/// The numbers of the outputs under these rows, sample by sample.
fn shown_of(alloc: Global, checked: &Checked, rows: &Rows, outputs: usize) -> Result<Vec<i128>>
    requires columns { rows.now.columns ≡ length (input_columns checked.now.diagram) }
    requires fits { FitsColumns (input_columns checked.now.diagram) rows.now }
    requires few { rows.now.lines ≤ 50000000 }
    requires outputs { outputs ≡ length (output_columns checked.now.diagram) }
{
    let mut responding = Responding::new(alloc, checked, rows, outputs)?;
    let mut shown = Vec::new(alloc);
    let put = put_samples(checked, rows, &mut responding, &mut shown);
    drop(responding);
    put?;
    Ok(shown)
}

/// The simulation of a diagram under a stimulus.
pub fn simulate(alloc: Global, checked: &Checked, stimulus: &[u8]) -> Result<Simulated> {
    let columns = columns_of(alloc, checked)?;
    let rows = rows_of(alloc, stimulus, &columns)?;
    let outputs = columns.outputs.as_slice().len();
    let shown = shown_of(alloc, checked, &rows, outputs)?;
    Ok(Simulated {
        columns,
        rows,
        shown,
    })
}
