ghost use Rattle.std.specs.Prelude.{◌≡◌, ◌<◌, ◌+◌, ◌^◌, IfOk, length};
ghost use Rattle.dg_response.specs.Responding.{IsBefore, IsRowAt, row_of};
ghost use Rattle.dg_response.specs.Response.{input_columns, output_columns};
ghost use Rattle.fx_tables.specs.Stimulus.{FitsColumns};

use dg_model::Checked;
use dg_sim::Sim;
use fx_io::OutOfMemory;
use fx_tables::Rows;
use std::alloc::Global;

/// The response of a diagram to the rows of a stimulus, one sample at a time (own).
#[derive(Drop)]
pub struct Responding {
    sim: Sim,
    row: Vec<i128>,
}

impl Responding {
    /// A response before its first sample. The rows have a column for each root input element, and
    /// there are so many root output elements. All memory is taken here.
    ///
    /// # Errors
    /// Want of memory.
    pub fn new(
        alloc: Global,
        checked: &Checked,
        rows: &Rows,
        outputs: usize,
    ) -> Result<Responding, OutOfMemory>
        requires columns { rows.now.columns ≡ length (input_columns checked.now.diagram) }
        requires fits { FitsColumns (input_columns checked.now.diagram) rows.now }
        requires few { rows.now.lines < 2 ^ 63 }
        requires outputs { outputs ≡ length (output_columns checked.now.diagram) }
        ensures { IfOk result (λ responding. IsBefore checked.now rows.now responding 0) }
    {
        let row = vec![in alloc; 0i128; outputs]?;
        let sim = Sim::new(alloc, checked)?;
        Ok(Responding { sim, row })
    }

    /// One sample more: what the table that solves the diagram under the rows shows of the root
    /// outputs at it. It takes no memory. Source: Simulink reference, simulation of discrete models.
    pub fn step(&mut self, checked: &Checked, rows: &Rows, sample: u64)
        requires before { IsBefore checked.now rows.now self.old sample }
        requires within { sample < rows.now.lines }
        ensures before { IsBefore checked.now rows.now self.new (sample + 1) }
        ensures row { IsRowAt checked.now rows.now sample (row_of self.new) }
        ensures wide { length (row_of self.new) ≡ length (row_of self.old) }
    {
        checked.keeps_rules();
        dg_model::columns_are_a_stimulus();
        dg_tables::some_table_solves();
        let numbers = rows.cells.as_slice();
        let columns = rows.columns as usize;
        let first = sample as usize * columns;
        let row = &numbers[first..first + columns];
        self.sim.step(checked, row, self.row.as_mut_slice());
    }

    /// Frees the response, so that crates above needn't prove how.
    pub fn discard(self) {
        let Responding { sim, row } = self;
        sim.discard();
        drop(row);
    }

    /// The numbers of the latest sample, one for each root output element.
    pub fn row(&self) -> &[i128]
        ensures { result.now ≡ row_of self.now }
    {
        self.row.as_slice()
    }
}
