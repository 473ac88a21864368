//! Periods and declared widths.
ghost use Rattle.std.specs.Prelude.{IsTrue, ◌↔◌, IfOk};
ghost use Rattle.dg_model.specs.KindRow.{IsPeriod};
ghost use Rattle.mdl_values.specs.Reads.{Finds};
ghost use Rattle.mdl_values.specs.Periods.{IsZeroText, IsAboveZero, IsWithOffset, IsPeriodText, IsSampleTime, IsConstantTime, IsBracketedNumber, IsWidthNumber, IsWidthText};

use crate::brackets::{bracket_elements, elements_within, opens};
use crate::lists::decimal;
use crate::numbers::read_number;
use dg_model::PeriodSpec;
use fx_io::OutOfMemory;
use fx_type::Decimal;
use std::alloc::Global;

/// Whether a text is a decimal that is 0.
fn is_zero(text: &[u8]) -> bool
    ensures { IsTrue result ↔ IsZeroText text.now }
{
    match decimal(text) {
        Some(value) => value.digits == 0,
        None => false,
    }
}

/// Whether a decimal is above 0.
fn is_above(value: Decimal) -> bool
    ensures { IsTrue result ↔ IsPeriod value }
{
    !value.negative && value.digits > 0
}

/// Reads a decimal above 0.
fn above_zero(text: &[u8]) -> Option<Decimal>
    ensures { Finds (IsAboveZero text.now) result }
{
    match decimal(text) {
        Some(value) => { if is_above(value) { Some(value) } else { None } }
        None => None,
    }
}

/// Reads a period that stands with its offset in brackets.
fn with_offset(alloc: Global, text: &[u8]) -> Result<Option<Decimal>, OutOfMemory>
    ensures { IfOk result (λ found. Finds (IsWithOffset text.now) found) }
{
    let Some(texts) = elements_within(bracket_elements(alloc, text)?, 2, 2) else {
        return Ok(None);
    };
    let elements = texts.as_slice();
    if !is_zero(elements[1].bytes()) {
        drop(texts);
        return Ok(None);
    }
    let period = above_zero(elements[0].bytes());
    drop(texts);
    Ok(period)
}

/// Reads a period: a decimal above 0, or in brackets such a decimal and a zero. Source: Simulink
/// reference, `SampleTime`.
pub fn read_period(alloc: Global, text: &[u8]) -> Result<Option<Decimal>, OutOfMemory>
    ensures { IfOk result (λ found. Finds (IsPeriodText text.now) found) }
{
    if opens(text) {
        with_offset(alloc, text)
    } else {
        Ok(above_zero(text))
    }
}

/// Reads -1, which inherits, or a period. Source: Simulink reference, `SampleTime`.
pub fn read_sample_time(alloc: Global, text: &[u8]) -> Result<Option<PeriodSpec>, OutOfMemory>
    ensures { IfOk result (λ found. Finds (IsSampleTime text.now) found) }
{
    if text == b"-1".as_slice() {
        return Ok(Some(PeriodSpec::Inherit));
    }
    match read_period(alloc, text)? {
        Some(period) => Ok(Some(PeriodSpec::Every(period))),
        None => Ok(None),
    }
}

/// Reads `inf` or -1, which both say that the value never changes, or a period. Source: Simulink
/// reference, Constant, `SampleTime`.
pub fn read_constant_time(alloc: Global, text: &[u8]) -> Result<Option<PeriodSpec>, OutOfMemory>
    ensures { IfOk result (λ found. Finds (IsConstantTime text.now) found) }
{
    if text == b"inf".as_slice() || text == b"-1".as_slice() {
        return Ok(Some(PeriodSpec::Constant));
    }
    match read_period(alloc, text)? {
        Some(period) => Ok(Some(PeriodSpec::Every(period))),
        None => Ok(None),
    }
}

/// Reads one number from 1 to 1024 in brackets.
fn bracketed_number(alloc: Global, text: &[u8]) -> Result<Option<u32>, OutOfMemory>
    ensures { IfOk result (λ found. Finds (IsBracketedNumber text.now) found) }
{
    let Some(texts) = elements_within(bracket_elements(alloc, text)?, 1, 1) else {
        return Ok(None);
    };
    let elements = texts.as_slice();
    let number = read_number(elements[0].bytes(), 1, 1024);
    drop(texts);
    Ok(number)
}

/// Reads a number from 1 to 1024, which may stand in brackets.
fn width_number(alloc: Global, text: &[u8]) -> Result<Option<u32>, OutOfMemory>
    ensures { IfOk result (λ found. Finds (IsWidthNumber text.now) found) }
{
    match read_number(text, 1, 1024) {
        Some(width) => Ok(Some(width)),
        None => bracketed_number(alloc, text),
    }
}

/// Reads a declared width: -1 for none, which is 0, or a number from 1 to 1024, which may stand in
/// brackets. Source: Simulink reference, Inport, `PortDimensions`.
pub fn read_width(alloc: Global, text: &[u8]) -> Result<Option<u32>, OutOfMemory>
    ensures { IfOk result (λ found. Finds (IsWidthText text.now) found) }
{
    if text == b"-1".as_slice() {
        Ok(Some(0))
    } else {
        width_number(alloc, text)
    }
}
