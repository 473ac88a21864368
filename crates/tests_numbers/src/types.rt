//! Conversions, full types and decimals.
use crate::words::{Operand, in_type, minus, read_end, valid_type};
use anyhow::{Error, Result};
use fx_round::{DecimalFault, convert, read_decimal, to_stored};
use fx_type::{FxType, TooWide, full_product, full_sum, union};
use std::alloc::Global;
use std::io::Write;
use tests_rows::{Row, write_result};

pub fn range<W: Write>(words: &mut Row<'_>, out: &mut W) -> Result<()> {
    let kind = valid_type(words)?;
    let lowest = kind.lowest();
    let highest = kind.highest();
    write_result(writeln!(out, "{lowest} {highest}"))
}

pub fn conversion<W: Write>(words: &mut Row<'_>, out: &mut W) -> Result<()> {
    let v = words.integer()?;
    let from = valid_type(words)?;
    let Operand { kind, value } = in_type(from, v)?;
    let end = read_end(words)?;
    let r = convert(value, kind, end.kind, end.rounding, end.saturate);
    write_result(writeln!(out, "{r}"))
}

pub fn decimal<W: Write>(words: &mut Row<'_>, text: &str, out: &mut W) -> Result<()> {
    let to = valid_type(words)?;
    match read_decimal(text.as_bytes()) {
        Ok(decimal) => {
            let stored = to_stored(decimal, to);
            let sign = if decimal.negative { "-" } else { "+" };
            let digits = decimal.digits;
            let exponent = decimal.exponent;
            write_result(writeln!(out, "{sign} {digits} {exponent} {stored}"))
        }
        Err(DecimalFault::NotANumber) => write_result(out.write_all(b"NotANumber\n")),
        Err(DecimalFault::TooLong) => write_result(out.write_all(b"TooLong\n")),
    }
}

pub fn sum_type<W: Write>(alloc: Global, words: &mut Row<'_>, out: &mut W) -> Result<()> {
    let mut terms = Vec::new(alloc);
    read_terms(words, &mut terms)?;
    put_sum_type(terms.as_slice(), out)
}

fn read_terms(words: &mut Row<'_>, terms: &mut Vec<(bool, FxType)>) -> Result<()> {
    for _ in 0..words.byte()? {
        let subtracted = minus(words)?;
        let term = valid_type(words)?;
        terms.push((subtracted, term))?;
    }
    Ok(())
}

fn put_sum_type<W: Write>(terms: &[(bool, FxType)], out: &mut W) -> Result<()> {
    if terms.len() >= 1 && terms.len() <= 32 && terms.iter().all(|term| term.1.is_valid()) {
        print_type(out, full_sum(terms))
    } else {
        Err(Error::msg("no terms, or too many"))
    }
}

/// Tells the full type of a product, or the union.
pub fn pair_type<W: Write>(product: bool, words: &mut Row<'_>, out: &mut W) -> Result<()> {
    let a = valid_type(words)?;
    let b = valid_type(words)?;
    if product {
        print_type(out, full_product(a, b))
    } else {
        print_type(out, union(a, b))
    }
}

fn print_type<W: Write>(out: &mut W, kind: Result<FxType, TooWide>) -> Result<()> {
    match kind {
        Ok(FxType::Logical) => write_result(out.write_all(b"L\n")),
        Ok(
            FxType::Num {
                signed,
                width,
                frac,
            },
        ) => {
            let sign = if signed { 's' } else { 'u' };
            write_result(writeln!(out, "{sign} {width} {frac}"))
        }
        Err(TooWide) => write_result(out.write_all(b"TooWide\n")),
    }
}
