ghost use Rattle.std.specs.Prelude.{◌≡◌, ◌<◌, [], IfOk, OnOk, length, replicate};
ghost use Rattle.fx_io.specs.Rows.{noted};

use crate::fault::OutOfMemory;
use crate::sequence::Sequence;
use std::alloc::Global;

/// So many empty rows (own).
///
/// # Errors
/// Want of memory.
pub fn empty_rows<E: Drop>(alloc: Global, count: usize) -> Result<Vec<Sequence<E>>, OutOfMemory>
    ensures { IfOk result (λ rows. rows.items ≡ replicate count []) }
{
    let mut rows: Vec<Sequence<E>> = Vec::new(alloc);
    for _row in 0..count {
        rows.push(Sequence::new(alloc))?;
    }
    Ok(rows)
}

/// Puts an item at the end of the row of this number (own).
///
/// # Errors
/// Want of memory.
pub fn push_at<E: Drop>(rows: &mut Vec<Sequence<E>>, row: u32, item: E) -> Result<(), OutOfMemory>
    requires { row < length rows.old.items }
    ensures { OnOk result (rows.new.items ≡ noted rows.old.items row item) }
{
    rows[row as usize].push(item)
}
