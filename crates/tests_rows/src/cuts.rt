//! Texts that are cut off, or are none.

use crate::lines::write_result;
use anyhow::Result;
use std::alloc::Global;
use std::io::Write;

/// A reader of texts.
pub trait Reads {
    /// The line at which a text is none, 0 where it is one.
    fn bad_line(alloc: Global, text: &[u8]) -> Result<u64>;
}

/// Writes that line of a text.
pub fn put_bad_line<T: Reads, W: Write>(alloc: Global, text: &[u8], out: &mut W) -> Result<()> {
    let line = T::bad_line(alloc, text)?;
    write_result(writeln!(out, "line {line}"))
}

/// Writes that of each beginning of a text, from one of so many bytes up to the whole.
pub fn put_cuts<T: Reads, W: Write>(
    alloc: Global,
    text: &[u8],
    first: usize,
    out: &mut W,
) -> Result<()> {
    for length in first..text.len() {
        let line = T::bad_line(alloc, &text[..length])?;
        write!(out, "{line} ")?;
    }
    let line = T::bad_line(alloc, text)?;
    write_result(writeln!(out, "{line}"))
}
