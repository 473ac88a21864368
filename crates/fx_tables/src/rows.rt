ghost use Rattle.std.specs.Prelude.{◌≡◌, ◌≢◌, ℕ, ◌+◌, ◌^◌, ◌<◌, ◌≤◌, ◌++◌, ◌==◌, nat_le, length, All, OnOk, IfOk, IfErr, if◌then◌else◌};
ghost use Rattle.fx_tables.specs.Fields.{fields_of};
ghost use Rattle.fx_tables.specs.Stimulus.{IsRows, FitsColumns, stimulus_fault, count_or_fields_fault, fault_or, is_too_large, most_cells, cells_of};

use crate::cell::cut_cell;
use crate::cut::{cut_field, cut_line, skip_blanks};
use crate::field::read_field;
use crate::table::{Column, Rows, TableCause, TableFault};
use fx_io::Cells;
use std::alloc::Global;

/// The most cells of all rows, counting inputs and outputs.
const MOST_CELLS: u128 = 50_000_000;

/// Reads a stimulus: a line per base sample and in it a field per column, numbers at hits and `-`
/// elsewhere (own). `outputs` counts the elements of the outputs, for the bound of 50,000,000 on
/// the rows times the greater of 1 and all elements. `Bad` names the first bad line with its first
/// cause, in this order: too many rows, the count of the fields, and then from left to right a
/// field that is no whole number, a dash at a hit, a number off a hit, a number out of range.
pub fn read_rows(
    alloc: Global,
    bytes: &[u8],
    columns: &[Column],
    outputs: u64,
) -> Result<Rows, TableFault>
    requires periods { All (λ column. 0 < column.period) columns.now }
    requires few_columns { length columns.now < 2 ^ 32 }
    ensures rows { IfOk result (IsRows columns.now outputs bytes.now) }
    ensures fits { IfOk result (FitsColumns columns.now) }
    ensures few { IfOk result (λ rows. rows.lines ≤ most_cells) }
    ensures refused { IfErr result (λ fault.
        fault ≢ TableFault.OutOfMemory →
        stimulus_fault columns.now outputs bytes.now ≡ Some fault) }
{
    let most = most_rows(columns.len(), outputs);
    let mut cells = Cells::new(alloc);
    let mut rest = bytes;
    let mut lines = 0u64;
    while !rest.is_empty() {
        let cut = cut_line(rest);
        if lines >= most {
            return Err(bad(lines, TableCause::TooManyRows));
        }
        read_line(cut.head, columns, lines, &mut cells)?;
        rest = cut.tail;
        lines += 1;
    }
    Ok(Rows {
        lines,
        columns: columns.len() as u32,
        cells,
    })
}

fn bad(sample: u64, cause: TableCause) -> TableFault
    requires { sample < 2 ^ 32 }
    ensures { result ≡ TableFault.Bad (sample + 1) cause }
{
    TableFault::Bad {
        line: sample + 1,
        cause,
    }
}

/// How many rows stay in the bound.
fn most_rows(inputs: usize, outputs: u64) -> u64
    ensures bound { result ≤ most_cells }
    ensures above { (rows : ℕ) → is_too_large inputs outputs (rows + 1) ≡ nat_le result rows }
{
    let width = (inputs as u128 + u128::from(outputs)).max(1);
    (MOST_CELLS / width) as u64
}

/// Reads one line onto the end of the cells.
fn read_line(
    line: &[u8],
    columns: &[Column],
    sample: u64,
    cells: &mut Cells,
) -> Result<(), TableFault>
    requires periods { All (λ column. 0 < column.period) columns.now }
    requires few { sample < 2 ^ 32 }
    ensures read { OnOk result (cells.new ≡ cells.old ++ cells_of line.now) }
    ensures full { OnOk result (length cells.new ≡ length cells.old + length columns.now) }
    ensures good { OnOk result
        (count_or_fields_fault columns.now sample (fields_of line.now) ≡ None) }
    ensures bad { IfErr result (λ fault.
        fault ≢ TableFault.OutOfMemory →
        fault_or (count_or_fields_fault columns.now sample (fields_of line.now)) (sample + 1) None
        ≡ Some fault) }
{
    let mut rest = line;
    for (k, column) in columns.iter().enumerate() {
        if let Some(cell) = cut_cell(rest, column, sample) {
            cells.push(cell.value)?;
            rest = cell.tail;
            continue;
        }
        let cut = cut_field(rest);
        if cut.head.is_empty() {
            return Err(bad(sample, TableCause::FieldCount));
        }
        match read_field(cut.head, column, sample) {
            Ok(value) => cells.push(value)?,
            Err(cause) => {
                let cause = cause_of_line(cut.tail, columns.len() - k - 1, cause);
                return Err(bad(sample, cause));
            }
        }
        rest = cut.tail;
    }
    if has_no_field(rest) {
        Ok(())
    } else {
        Err(bad(sample, TableCause::FieldCount))
    }
}

/// Whether nothing but blanks is left of a line.
#[inline(always)]
fn has_no_field(line: &[u8]) -> bool
    ensures { result ≡ (length (fields_of line.now) == 0) }
{
    skip_blanks(line).is_empty()
}

/// The first cause of a line with a bad field: a wrong count of fields comes before it.
fn cause_of_line(rest: &[u8], wanted: usize, cause: TableCause) -> TableCause
    ensures { result
        ≡ (if length (fields_of rest.now) == wanted then cause else TableCause.FieldCount) }
{
    if count_fields(rest) == wanted {
        cause
    } else {
        TableCause::FieldCount
    }
}

/// How many fields a line has.
fn count_fields(line: &[u8]) -> usize
    ensures { result ≡ length (fields_of line.now) }
{
    let mut count = 0;
    let mut rest = line;
    'fields: loop {
        let cut = cut_field(rest);
        if cut.head.is_empty() {
            return count;
        }
        count += 1;
        rest = cut.tail;
    }
}
