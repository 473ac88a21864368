//! Slots and multipliers of operations.

use crate::reading::{Told, all_told, told_in};
use anyhow::{Error, Result};
use hw_slots::{Operation, SlotFault, Slots, Span, slots_of};
use std::alloc::Global;
use std::io::Write;
use tests_rows::{Row, write_result};

impl Told for Operation {
    fn from_row(row: &mut Row<'_>) -> Result<Operation> {
        Ok(Operation {
            kind: row.long()?,
            period: row.long()?,
            level: row.long()?,
        })
    }
}

impl Told for Span {
    fn from_row(row: &mut Row<'_>) -> Result<Span> {
        Ok(Span {
            start: row.long()?,
            have: row.long()?,
        })
    }
}

/// What is asked of a row's operations.
#[derive(Clone, Copy)]
struct Asked {
    multipliers: u64,
    kinds: u64,
    /// The period whose levels are printed, and how many these are.
    period: u64,
    levels: u64,
}

fn asked_of(row: &mut Row<'_>) -> Result<Asked> {
    Ok(Asked {
        multipliers: row.long()?,
        kinds: row.long()?,
        period: row.long()?,
        levels: row.long()?,
    })
}

/// Prints the slots and multipliers of operations, or the period that is short.
pub fn put_slots<W: Write>(alloc: Global, row: &mut Row<'_>, out: &mut W) -> Result<()> {
    let asked = asked_of(row)?;
    let periods = all_told::<Span>(alloc, row, 2)?;
    let operations = told_in::<Operation>(alloc, row.text.as_slice(), 3)?;
    put_found(alloc, operations.as_slice(), periods.as_slice(), asked, out)
}

fn put_found<W: Write>(
    alloc: Global,
    operations: &[Operation],
    periods: &[Span],
    asked: Asked,
    out: &mut W,
) -> Result<()> {
    if asked.multipliers == 0 {
        return Err(Error::msg("no multiplier"));
    }
    match slots_of(alloc, operations, periods, asked.multipliers, asked.kinds) {
        Ok(slots) => put_served(&slots, asked, out),
        Err(fault) => put_fault(fault, out),
    }
}

fn put_served<W: Write>(slots: &Slots, asked: Asked, out: &mut W) -> Result<()> {
    out.write_all(b"slots ")?;
    put_numbers(slots.starts.as_slice(), out)?;
    out.write_all(b"multipliers ")?;
    put_numbers(slots.units.as_slice(), out)?;
    out.write_all(b"levels ")?;
    for level in 0..asked.levels {
        let base = slots.bases.at(asked.period, level);
        write!(out, "{base} ")?;
    }
    write_result(out.write_all(b"\n"))
}

fn put_numbers<W: Write>(numbers: &[u64], out: &mut W) -> Result<()> {
    for number in numbers {
        write!(out, "{number} ")?;
    }
    Ok(())
}

fn put_fault<W: Write>(fault: SlotFault, out: &mut W) -> Result<()> {
    match fault {
        SlotFault::Budget { period, need, have } => {
            writeln!(out, "period {period} needs {need} and has {have}")?;
            Ok(())
        }
        SlotFault::OutOfMemory => Err(Error::msg("out of memory")),
    }
}
