//! A simulation of a checked diagram over a stimulus, and the lines of its response.
ghost use Rattle.std.specs.Prelude.{◌≡◌, ◌<◌, ◌≤◌, ◌^◌, ◌↔◌, All, IfErr, IfOk, IsTrue, OnErr, OnOk, length};
ghost use Rattle.fx_io.specs.Cause.{Rose};
ghost use Rattle.fx_tables.specs.RowText.{periods_of};
ghost use Rattle.fx_tables.specs.Stimulus.{FitsColumns};
ghost use Rattle.dg_response.specs.Laws.{SomeResponse};
ghost use Rattle.dg_response.specs.Responding.{IsBefore, row_of};
ghost use Rattle.cmd_simulate.specs.Simulating.{AreLines, IsSimulationIn, IsStimulusFault, TookLines, TookPartOfLines};
ghost use Rattle.cmd_simulate.specs.inner.Columns.{HasColumns, HaveRows, IsReadyFor};

use dg_model::{Checked, root_elements_are_listed};
use dg_response::{Responding, RootColumns, columns, some_response};
use fx_io::{OutOfMemory, PutFault, Sink, Text, put_all};
use fx_tables::{Column, RowText, Rows, TableFault, read_rows};
use hw_sched::periods_are_above;
use std::alloc::Global;

/// No table has so many columns.
const MOST_COLUMNS: usize = 4_294_967_296;

/// The response of a diagram before its first sample, and the writer of its lines. All memory that
/// the lines need is taken.
#[derive(Drop)]
pub struct Simulation {
    /// The numbers of the stimulus.
    pub rows: Rows,
    /// The diagram's response to them, one sample at a time.
    pub responding: Responding,
    /// The writer of a sample's line.
    pub text: RowText,
}

impl Simulation {
    /// Frees all three.
    fn discard(self) {
        let Simulation {
            rows,
            responding,
            text,
        } = self;
        rows.discard();
        responding.discard();
        text.discard();
    }
}

/// The columns of a diagram, where they can be numbered by 32 bits.
#[tactic(auto, unfolding(crate::specs::inner::Columns::HasColumns))]
fn columns_of(alloc: Global, checked: &Checked) -> Result<RootColumns, OutOfMemory>
    ensures columns { IfOk result (HasColumns checked.now.diagram) }
    ensures input_periods { IfOk result (λ columns. All
        (λ column. 0 < column.period) columns.inputs) }
    ensures few_inputs { IfOk result (λ columns. length columns.inputs < 2 ^ 32) }
    ensures output_periods { IfOk result
        (λ columns. All (λ column. 0 < column.period) columns.outputs) }
    ensures few_outputs { IfOk result (λ columns. length columns.outputs < 2 ^ 32) }
{
    checked.keeps_rules();
    root_elements_are_listed();
    periods_are_above();
    let columns = columns(alloc, checked)?;
    match fit(&columns) {
        Ok(()) => Ok(columns),
        Err(wanting) => {
            columns.discard();
            Err(wanting)
        }
    }
}

/// The response of a diagram to the rows of its stimulus, before its first sample.
#[tactic(auto, unfolding(crate::specs::inner::Columns::HasColumns))]
fn responding_to(
    alloc: Global,
    checked: &Checked,
    columns: &RootColumns,
    rows: &Rows,
) -> Result<Responding, OutOfMemory>
    requires { HaveRows checked.now.diagram columns.now rows.now }
    ensures before { IfOk result (λ responding. IsBefore checked.now rows.now responding 0) }
    ensures response { OnOk result (SomeResponse checked.now.diagram rows.now) }
{
    checked.keeps_rules();
    some_response();
    let responding = Responding::new(alloc, checked, rows, columns.outputs.as_slice().len())?;
    Ok(responding)
}

/// The response of a diagram to the rows of its stimulus, and the writer of its lines.
fn simulation_with(
    alloc: Global,
    checked: &Checked,
    columns: &RootColumns,
    rows: Rows,
) -> Result<Simulation, OutOfMemory>
    requires rows { HaveRows checked.now.diagram columns.now rows }
    requires periods { All (λ column. 0 < column.period) columns.now.outputs }
    requires few_outputs { length columns.now.outputs < 2 ^ 32 }
    ensures { IfOk result (IsReadyFor checked.now columns.now rows) }
{
    let text = match RowText::new(alloc, columns.outputs.as_slice()) {
        Ok(text) => text,
        Err(wanting) => {
            rows.discard();
            return Err(wanting);
        }
    };
    match responding_to(alloc, checked, columns, &rows) {
        Ok(responding) => Ok(Simulation {
            rows,
            responding,
            text,
        }),
        Err(wanting) => {
            rows.discard();
            text.discard();
            Err(wanting)
        }
    }
}

/// The response of a diagram to a stimulus, before its first sample.
///
/// # Errors
/// The first bad line of the stimulus, by the columns of the diagram's root ports (`FORMATS.md`). Or
/// want of memory.
pub fn simulation_in(
    alloc: Global,
    checked: &Checked,
    stimulus: &[u8],
) -> Result<Simulation, TableFault>
    ensures made { IfOk result (IsSimulationIn checked.now stimulus.now) }
    ensures refused { IfErr result (IsStimulusFault checked.now.diagram stimulus.now) }
{
    let columns = match columns_of(alloc, checked) {
        Ok(columns) => columns,
        Err(OutOfMemory) => return Err(TableFault::OutOfMemory),
    };
    let count = columns.outputs.as_slice().len() as u64;
    let rows = match read_rows(alloc, stimulus, columns.inputs.as_slice(), count) {
        Ok(rows) => rows,
        Err(fault) => {
            columns.discard();
            return Err(fault);
        }
    };
    let made = simulation_with(alloc, checked, &columns, rows);
    columns.discard();
    match made {
        Ok(simulation) => Ok(simulation),
        Err(OutOfMemory) => Err(TableFault::OutOfMemory),
    }
}

/// Whether columns can be numbered by 32 bits.
fn is_few(columns: &[Column]) -> bool
    ensures { IsTrue result ↔ length columns.now < 2 ^ 32 }
{
    columns.len() < MOST_COLUMNS
}

/// That columns are few enough to be numbered by 32 bits.
fn fit(columns: &RootColumns) -> Result<(), OutOfMemory>
    ensures inputs { OnOk result (length columns.now.inputs < 2 ^ 32) }
    ensures outputs { OnOk result (length columns.now.outputs < 2 ^ 32) }
{
    if is_few(columns.inputs.as_slice()) && is_few(columns.outputs.as_slice()) {
        return Ok(());
    }
    // word: columns are numbered in 32 bits
    Err(OutOfMemory)
}

/// Puts the line of each row by itself, as soon as its sample is made. It takes no memory.
fn put_lines<K: Sink>(
    checked: &Checked,
    rows: &Rows,
    responding: &mut Responding,
    text: &mut RowText,
    out: &mut K,
) -> Result<(), PutFault>
    requires before { IsBefore checked.now rows.now responding.old 0 }
    requires wide { length (row_of responding.old) ≡ length (periods_of text.old) }
    ensures whole { OnOk result (TookLines checked.now rows.now (periods_of text.old) rows.now.lines
        (K.taken out.old) (K.taken out.new)) }
    ensures cut { OnErr result (TookPartOfLines checked.now rows.now (periods_of text.old)
        (K.taken out.old) (K.taken out.new)) }
    ensures cause { OnErr result (Rose (K.faults out.old) (K.faults out.new)) }
{
    for sample in 0..rows.count() {
        responding.step(checked, rows, sample);
        if let Err(fault) = put_all(out, text.line(sample, responding.row())) {
            return Err(fault);
        }
    }
    Ok(())
}

/// Puts the lines of a response, each by itself and as soon as its sample is made. It takes no memory.
pub fn put_response<K: Sink>(
    checked: &Checked,
    mut ready: Simulation,
    out: &mut K,
) -> Result<(), PutFault>
    requires before { IsBefore checked.now ready.rows ready.responding 0 }
    requires wide { length (row_of ready.responding) ≡ length (periods_of ready.text) }
    ensures whole { OnOk result (TookLines checked.now ready.rows (periods_of ready.text)
        ready.rows.lines (K.taken out.old) (K.taken out.new)) }
    ensures cut { OnErr result (TookPartOfLines checked.now ready.rows (periods_of ready.text)
        (K.taken out.old) (K.taken out.new)) }
    ensures cause { OnErr result (Rose (K.faults out.old) (K.faults out.new)) }
{
    let put = put_lines(
        checked,
        &ready.rows,
        &mut ready.responding,
        &mut ready.text,
        out,
    );
    ready.discard();
    put
}

/// The lines of a response, one after another.
pub fn response_text(
    alloc: Global,
    checked: &Checked,
    mut ready: Simulation,
) -> Result<Text, OutOfMemory>
    requires before { IsBefore checked.now ready.rows ready.responding 0 }
    requires wide { length (row_of ready.responding) ≡ length (periods_of ready.text) }
    ensures { IfOk result (AreLines checked.now ready.rows (periods_of ready.text)
        ready.rows.lines) }
{
    let lines = lines_of(
        alloc,
        checked,
        &ready.rows,
        &mut ready.responding,
        &mut ready.text,
    );
    ready.discard();
    lines
}

/// The lines of all rows, one after another.
fn lines_of(
    alloc: Global,
    checked: &Checked,
    rows: &Rows,
    responding: &mut Responding,
    text: &mut RowText,
) -> Result<Text, OutOfMemory>
    requires before { IsBefore checked.now rows.now responding.old 0 }
    requires wide { length (row_of responding.old) ≡ length (periods_of text.old) }
    ensures { IfOk result (AreLines checked.now rows.now (periods_of text.old) rows.now.lines) }
{
    let mut lines = Vec::new(alloc);
    for sample in 0..rows.count() {
        responding.step(checked, rows, sample);
        lines.extend_from_slice(text.line(sample, responding.row()))?;
    }
    Text::from_vec(alloc, lines)
}
