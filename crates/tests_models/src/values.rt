//! Values of parameters.

use anyhow::Result;
use fx_type::Decimal;
use mdl_values::{
    read_constant_time, read_criterion, read_gate, read_list, read_number, read_period,
    read_relation, read_reset, read_rounding, read_sample_time, read_signs, read_sizes,
    read_switch, read_type, read_width,
};
use std::alloc::Global;
use std::io::Write;
use tests_rows::{Row, put_debug, write_result};

/// A kind of value.
#[derive(Clone, Copy)]
enum Kind {
    List,
    Sizes,
    Signs,
    Period,
    SampleTime,
    ConstantTime,
    Width,
    Type,
    Number,
    Rounding,
    Relation,
    Gate,
    Criterion,
    Switch,
    Reset,
}

/// Tells the value of a text by the kind that a word names, `None` where it has none.
pub fn value<W: Write>(alloc: Global, row: &mut Row<'_>, out: &mut W) -> Result<()> {
    let kind = row.one_of(&[
        ("list", Kind::List),
        ("sizes", Kind::Sizes),
        ("signs", Kind::Signs),
        ("period", Kind::Period),
        ("sample_time", Kind::SampleTime),
        ("constant_time", Kind::ConstantTime),
        ("width", Kind::Width),
        ("type", Kind::Type),
        ("number", Kind::Number),
        ("rounding", Kind::Rounding),
        ("relation", Kind::Relation),
        ("gate", Kind::Gate),
        ("criterion", Kind::Criterion),
        ("switch", Kind::Switch),
        ("reset", Kind::Reset),
    ])?;
    let text = row.text.as_slice();
    match kind {
        Kind::List => list(alloc, text, out),
        Kind::Sizes => sizes(alloc, text, out),
        Kind::Signs => signs(alloc, text, out),
        Kind::Period => put_decimal(read_period(alloc, text)?, out),
        Kind::SampleTime => put_debug(&read_sample_time(alloc, text)?, out),
        Kind::ConstantTime => put_debug(&read_constant_time(alloc, text)?, out),
        Kind::Width => put_debug(&read_width(alloc, text)?, out),
        Kind::Type => put_debug(&read_type(text), out),
        Kind::Number => number(row, out),
        Kind::Rounding => put_debug(&read_rounding(text), out),
        Kind::Relation => put_debug(&read_relation(text), out),
        Kind::Gate => put_debug(&read_gate(text), out),
        Kind::Criterion => put_debug(&read_criterion(text), out),
        Kind::Switch => put_debug(&read_switch(text), out),
        Kind::Reset => put_debug(&read_reset(text), out),
    }
}

fn number<W: Write>(row: &mut Row<'_>, out: &mut W) -> Result<()> {
    let low = row.number()?;
    let high = row.number()?;
    put_debug(&read_number(row.text.as_slice(), low, high), out)
}

/// Tells a decimal without its exponent.
fn put_decimal<W: Write>(decimal: Option<Decimal>, out: &mut W) -> Result<()> {
    match decimal {
        Some(decimal) => put_debug(&decimal, out),
        None => write_result(out.write_all(b"None\n")),
    }
}

fn list<W: Write>(alloc: Global, text: &[u8], out: &mut W) -> Result<()> {
    match read_list(alloc, text)? {
        Some(list) => put_list(list.as_slice(), out),
        None => write_result(out.write_all(b"None\n")),
    }
}

fn put_list<W: Write>(list: &[Decimal], out: &mut W) -> Result<()> {
    for decimal in list {
        let sign = if decimal.negative { "-" } else { "" };
        let digits = decimal.digits;
        let exponent = decimal.exponent;
        write!(out, "{sign}{digits}e{exponent} ")?;
    }
    write_result(out.write_all(b"\n"))
}

fn sizes<W: Write>(alloc: Global, text: &[u8], out: &mut W) -> Result<()> {
    match read_sizes(alloc, text)? {
        Some(sizes) => put_debug(&sizes.as_slice(), out),
        None => write_result(out.write_all(b"None\n")),
    }
}

fn signs<W: Write>(alloc: Global, text: &[u8], out: &mut W) -> Result<()> {
    match read_signs(alloc, text)? {
        Some(signs) => put_debug(&signs.as_slice(), out),
        None => write_result(out.write_all(b"None\n")),
    }
}
