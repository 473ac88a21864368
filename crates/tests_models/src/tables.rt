//! Checked models, plans and stimuli.
ghost use Rattle.std.specs.Prelude.{◌<◌, ◌^◌, All, length};
ghost use Rattle.dg_model.specs.PlanRange.{IsPlanInRange};

use crate::told::{put_fault, put_rule};
use anyhow::{Error, Result};
use cmd_model::{ModelFault, accept};
use dg_model::{Checked, Plan};
use dg_rules::resolve;
use fx_tables::{Column, Rows, TableCause, TableFault, read_plan, read_rows};
use std::alloc::Global;
use std::io::Write;
use tests_rows::{Row, put_escaped, write_result};

const BYTE: Column = Column {
    low: -128,
    high: 127,
    period: 1,
};

const SLOW: Column = Column {
    low: -128,
    high: 127,
    period: 2,
};

const WIDE: Column = Column {
    low: i128::MIN,
    high: i128::MAX,
    period: 1,
};

/// What is said of a model.
pub fn put_verdict<W: Write>(alloc: Global, text: &[u8], out: &mut W) -> Result<()> {
    match accept(alloc, text) {
        Ok(checked) => {
            let count = checked.order().len();
            drop(checked);
            write_result(writeln!(out, "{count} blocks"))
        }
        Err(fault) => {
            let put = put_model_fault(alloc, &fault, out);
            drop(fault);
            put
        }
    }
}

fn put_model_fault<W: Write>(alloc: Global, fault: &ModelFault, out: &mut W) -> Result<()> {
    match fault {
        ModelFault::NotMdl { line } => write_result(writeln!(out, "line {line}")),
        ModelFault::Broken { fault, blocks } => put_rule(alloc, fault, blocks.as_slice(), out),
        ModelFault::OutOfMemory => Err(Error::msg("out of memory")),
    }
}

/// Keeps the text of a plan, and tells the plan.
pub fn plan<W: Write>(alloc: Global, text: &[u8], kept: &mut Vec<u8>, out: &mut W) -> Result<()> {
    kept.clear();
    kept.extend_from_slice(text)?;
    match read_plan(alloc, text) {
        Ok(plan) => put_plan(&plan, out),
        Err(fault) => put_table_fault(fault, out),
    }
}

fn put_plan<W: Write>(plan: &Plan, out: &mut W) -> Result<()> {
    let cycles = plan.cycles;
    let multipliers = plan.multipliers;
    write!(out, "cycles {cycles} multipliers {multipliers}")?;
    for pipeline in plan.pipelines.as_slice() {
        out.write_all(b" ")?;
        put_escaped(out, pipeline.path.bytes())?;
        let count = pipeline.count;
        write!(out, " {count}")?;
    }
    write_result(out.write_all(b"\n"))
}

fn put_table_fault<W: Write>(fault: TableFault, out: &mut W) -> Result<()> {
    match fault {
        TableFault::Bad { line, cause } => { put_cause(line, cause, out) }
        TableFault::OutOfMemory => Err(Error::msg("out of memory")),
    }
}

fn put_cause<W: Write>(line: u64, cause: TableCause, out: &mut W) -> Result<()> {
    write_result(writeln!(out, "line {line}: {cause}"))
}

/// What a plan sets behind each block of a model, or the rule that it breaks.
pub fn stages<W: Write>(alloc: Global, text: &[u8], plan: &[u8], out: &mut W) -> Result<()> {
    match accept(alloc, text) {
        Ok(checked) => {
            let put = put_planned(alloc, &checked, plan, out);
            drop(checked);
            put
        }
        Err(fault) => {
            drop(fault);
            Err(Error::msg("the model is not accepted"))
        }
    }
}

fn put_planned<W: Write>(alloc: Global, checked: &Checked, plan: &[u8], out: &mut W) -> Result<()> {
    match read_plan(alloc, plan) {
        Ok(plan) => put_resolved(alloc, checked, &plan, out),
        Err(_fault) => Err(Error::msg("the plan is none")),
    }
}

fn put_resolved<W: Write>(alloc: Global, checked: &Checked, plan: &Plan, out: &mut W) -> Result<()>
    requires { IsPlanInRange plan.now }
{
    match resolve(alloc, checked, plan) {
        Ok(resolved) => put_stages(resolved.stages.as_slice(), out),
        Err(fault) => put_fault(alloc, fault, checked.diagram().blocks.as_slice(), out),
    }
}

fn put_stages<W: Write>(stages: &[u32], out: &mut W) -> Result<()> {
    for count in stages {
        write!(out, "{count} ")?;
    }
    write_result(out.write_all(b"\n"))
}

/// What is read of a stimulus of columns that a word names.
pub fn rows<W: Write>(alloc: Global, row: &mut Row<'_>, out: &mut W) -> Result<()> {
    let columns = row.next()?;
    let outputs = row.long()?;
    let text = row.text.as_slice();
    match columns {
        "byte" => put_rows(alloc, text, &[BYTE], outputs, out),
        "slow" => put_rows(alloc, text, &[SLOW], outputs, out),
        "wide" => put_rows(alloc, text, &[WIDE], outputs, out),
        "both" => put_rows(alloc, text, &[BYTE, SLOW], outputs, out),
        "none" => put_rows(alloc, text, &[], outputs, out),
        _ => Err(Error::msg("no columns")),
    }
}

fn put_rows<W: Write>(
    alloc: Global,
    text: &[u8],
    columns: &[Column],
    outputs: u64,
    out: &mut W,
) -> Result<()>
    requires periods { All (λ column. 0 < column.period) columns.now }
    requires few { length columns.now < 2 ^ 32 }
{
    match read_rows(alloc, text, columns, outputs) {
        Ok(rows) => put_cells(&rows, out),
        Err(fault) => put_table_fault(fault, out),
    }
}

fn put_cells<W: Write>(rows: &Rows, out: &mut W) -> Result<()> {
    let count = rows.count();
    let columns = rows.columns;
    write!(out, "{count} by {columns}:")?;
    for cell in rows.cells.as_slice() {
        write!(out, " {cell}")?;
    }
    write_result(out.write_all(b"\n"))
}
