//! Values by the words that tell them.
ghost use Rattle.std.specs.Prelude.{◌<◌};

use anyhow::Result;
use std::alloc::Global;
use tests_rows::Row;

/// A value that words tell.
pub trait Told: Copy {
    fn from_row(row: &mut Row<'_>) -> Result<Self>;
}

/// The values of the words that are left, of which each takes so many.
pub fn all_told<T: Told>(alloc: Global, row: &mut Row<'_>, words: usize) -> Result<Vec<T>>
    requires { 0 < words }
{
    let mut all = Vec::new(alloc);
    for _ in 0..row.words_left() / words {
        all.push(T::from_row(row)?)?;
    }
    Ok(all)
}

/// Those of the words of a text.
pub fn told_in<T: Told>(alloc: Global, text: &[u8], words: usize) -> Result<Vec<T>>
    requires { 0 < words }
{
    let mut table = Row::of(alloc, str::from_utf8(text)?)?;
    all_told(alloc, &mut table, words)
}

impl Told for i128 {
    fn from_row(row: &mut Row<'_>) -> Result<i128> {
        row.integer()
    }
}
