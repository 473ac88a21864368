ghost use Rattle.std.specs.Prelude.{◌≡◌, ◌<◌, ◌≤◌, ◌∷◌, [], length, IfOk, IfSome, slice_index, if◌then◌else◌};
ghost use Rattle.fx_tables.specs.Fields.{is_blank, after_blanks, fields_of};
ghost use Rattle.fx_tables.specs.inner.Draft.{IsEntryInRange};
ghost use Rattle.fx_tables.specs.inner.PlainPlan.{entry_of, sole_number, pipeline_entry, pipelined_entry};

use crate::cut::{cut_field, skip_blanks};
use dg_model::Pipeline;
use fx_io::{OutOfMemory, Text};
use fx_text::{QuotedText, read_short, read_string};
use std::alloc::Global;

/// The most digits of a number in a plan.
const MOST_DIGITS: usize = 9;

/// What one line of a plan says.
#[derive(Drop)]
pub(crate) enum PlanEntry {
    /// It is blank or a comment.
    Passed,
    /// The clocks of a base sample.
    Cycles(u32),
    /// The multipliers that are shared.
    Multipliers(u32),
    /// The registers behind a block.
    Pipelined(Pipeline),
}

/// Reads one line; `None` says that it has no form.
pub(crate) fn read_entry(alloc: Global, line: &[u8]) -> Result<Option<PlanEntry>, OutOfMemory>
    ensures value { IfOk result (λ entry. entry ≡ entry_of line.now) }
    ensures in_range { IfOk result (λ entry. IfSome entry IsEntryInRange) }
{
    if !line.is_empty() && line[0] == b'#' {
        return Ok(Some(PlanEntry::Passed));
    }
    let cut = cut_field(line);
    if cut.head.is_empty() {
        Ok(Some(PlanEntry::Passed))
    } else if cut.head == b"cycles".as_slice() {
        Ok(read_number(cut.tail, 1, 1024).map(PlanEntry::Cycles))
    } else if cut.head == b"multipliers".as_slice() {
        Ok(read_number(cut.tail, 0, 64).map(PlanEntry::Multipliers))
    } else if cut.head == b"pipeline".as_slice() {
        read_pipeline(alloc, cut.tail)
    } else {
        Ok(None)
    }
}

/// Reads the path and the count behind the word `pipeline`.
fn read_pipeline(alloc: Global, text: &[u8]) -> Result<Option<PlanEntry>, OutOfMemory>
    ensures value { IfOk result (λ entry. entry ≡ pipeline_entry (after_blanks text.now)) }
    ensures in_range { IfOk result (λ entry. IfSome entry IsEntryInRange) }
{
    let quote = skip_blanks(text);
    if quote.is_empty() || quote[0] != b'"' {
        return Ok(None);
    }
    match read_string(alloc, &quote[1..])? {
        None => Ok(None),
        Some(QuotedText { content, length }) => Ok(read_count_of(content, &quote[1 + length..])),
    }
}

/// Reads the count behind the path of a block.
fn read_count_of(path: Text, rest: &[u8]) -> Option<PlanEntry>
    ensures value { result ≡ (if is_blank (slice_index rest.now 0)
        then pipelined_entry path (sole_number 1 64 (fields_of rest.now)) else None) }
    ensures in_range { IfSome result IsEntryInRange }
{
    if rest.is_empty() || (rest[0] != b' ' && rest[0] != b'\t') {
        return None;
    }
    match read_number(rest, 1, 64) {
        None => None,
        Some(count) => Some(PlanEntry::Pipelined(Pipeline { path, count })),
    }
}

/// Reads the only field of a line as a number from `low` to `high`.
fn read_number(line: &[u8], low: u32, high: u32) -> Option<u32>
    ensures value { result ≡ sole_number low high (fields_of line.now) }
    ensures in_range { IfSome result (λ count. (low ≤ count) × (count ≤ high)) }
{
    let cut = cut_field(line);
    if cut.head.is_empty() || !cut_field(cut.tail).head.is_empty() {
        return None;
    }
    read_digits(cut.head, low, high)
}

/// Reads 1 to 9 digits as a number from `low` to `high`.
fn read_digits(field: &[u8], low: u32, high: u32) -> Option<u32>
    requires { 0 < length field.now }
    ensures value { result ≡ sole_number low high (field.now ∷ []) }
    ensures in_range { IfSome result (λ count. (low ≤ count) × (count ≤ high)) }
{
    if field.len() > MOST_DIGITS {
        return None;
    }
    match read_short(field) {
        Some(value) if u64::from(low) <= value && value <= u64::from(high) => Some(value as u32),
        _ => None,
    }
}
