ghost use Rattle.std.specs.Prelude.{◌≡◌, ◌<◌, IfOk, length};
ghost use Rattle.dg_model.specs.Periods.{periods_of};
ghost use Rattle.dg_model.specs.Wired.{IsWired};
ghost use Rattle.dg_sort.specs.Rows.{AreRows};
ghost use Rattle.dg_sort.specs.inner.Rows.{is_line_instant};

use crate::instant::{control_now, reads_now};
use dg_model::{Block, Diagram, Edge, is_slow_to_fast};
use fx_io::{OutOfMemory, Sizes, empty_rows, push_at};
use std::alloc::Global;

/// Whether an edge's end is read in the sample of its source.
fn is_instant(blocks: &[Block], periods: &[Option<u32>], edge: Edge) -> bool
    requires from { edge.from < length periods.now }
    requires to { edge.to < length blocks.now }
    requires timed { length periods.now ≡ length blocks.now }
    ensures { result ≡ is_line_instant blocks.now periods.now edge }
{
    let slower = is_slow_to_fast(periods[edge.from as usize], periods[edge.to as usize]);
    reads_now(&blocks[edge.to as usize].kind, slower)
}

/// By block, the blocks that it reads in its own sample: its drivers by port, and the control that
/// it asks.
pub fn rows_of(
    alloc: Global,
    diagram: &Diagram,
    periods: &[Option<u32>],
) -> Result<Vec<Sizes>, OutOfMemory>
    requires wired { IsWired diagram.now }
    requires periods { periods.now ≡ periods_of diagram.now }
    ensures { IfOk result (λ rows. AreRows diagram.now rows.items) }
{
    let blocks = diagram.blocks.as_slice();
    let mut rows = empty_rows(alloc, blocks.len())?;
    for edge in diagram.edges.as_slice() {
        let edge = *edge;
        if is_instant(blocks, periods, edge) {
            push_at(&mut rows, edge.to, edge.from)?;
        }
    }
    for (place, block) in blocks.iter().enumerate() {
        if let Some(control) = control_now(block) {
            push_at(&mut rows, place as u32, control)?;
        }
    }
    Ok(rows)
}
