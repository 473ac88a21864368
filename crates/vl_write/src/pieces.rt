// The lines of items in parts, which workers spell where there are many.
ghost use Rattle.std.specs.Prelude.{◌≡◌, [], ◌*◌, ◌+◌, ◌<◌, ◌≤◌, ◌++◌, IfOk, flat_map, length};
ghost use Rattle.vl_ast.specs.Spelling.{item_text};
ghost use Rattle.vl_write.specs.inner.Pieces.{piece_text, Adds};

use crate::items::with_lines;
use fx_io::{Gate, OutOfMemory};
use rayon::current_num_threads;
use rayon::prelude::*;
use std::alloc::Global;
use std::thread::Threads;
use vl_ast::ModItem;

/// A piece has so many items, and the last one as many as are left.
const PIECE: usize = 32;

/// So many pieces are worth a second worker: of fewer `rayon` starts none.
const MANY: usize = 2048;

/// How many pieces so many items have.
fn pieces_of(items: usize) -> usize
    ensures enough { items ≤ result * 32 }
    ensures short { result * 32 < items + 32 }
{
    items.div_ceil(PIECE)
}

/// The lines so far with those of the piece of this number at their end.
fn with_piece<G: Gate>(
    lines: Result<Vec<u8>, OutOfMemory>,
    items: &[ModItem],
    piece: usize,
    gate: &G,
) -> Result<Vec<u8>, OutOfMemory>
    requires { piece * 32 < length items.now }
    ensures { Adds (piece_text items.now piece) lines result }
{
    let Ok(lines) = lines else {
        // allocation: that of the pieces before
        return Err(OutOfMemory);
    };
    let first = piece * PIECE;
    let end = first + PIECE.min(items.len() - first);
    with_lines(lines, &items[first..end], first as u64, gate)
}

/// The lines of items in order, in a stretch from each worker.
fn stretches<R: Threads + Sync, G: Gate + Sync>(
    rt: &R,
    alloc: Global,
    items: &[ModItem],
    gate: &G,
) -> Result<Vec<Vec<u8>>, OutOfMemory>
    ensures { IfOk result (λ stretches.
        flat_map (λ lines. lines.items) stretches.items ≡ flat_map item_text items.now) }
{
    (0..pieces_of(items.len()))
        .into_par_iter()
        .fold(
            || -> Result<Vec<u8>, OutOfMemory>
                ensures { IfOk result (λ lines. lines.items ≡ []) }
            { Ok(Vec::new(alloc)) },
            |lines: Result<Vec<u8>, OutOfMemory>, piece: usize| -> Result<Vec<u8>, OutOfMemory>
                requires { piece * 32 < length items.now }
                ensures { Adds (piece_text items.entry.now piece) lines result }
            { with_piece(lines, items, piece, gate) },
        )
        .collect::<Result<Vec<Vec<u8>>, OutOfMemory>>(rt, alloc)?
}

/// A text with the items at its end, each on a line of its own, in parts: of many items the text and a
/// part from each worker, of few or by one processor one part.
pub fn with_items<R: Threads + Sync, G: Gate + Sync>(
    rt: &R,
    alloc: Global,
    text: Vec<u8>,
    items: &[ModItem],
    gate: &G,
) -> Result<Vec<Vec<u8>>, OutOfMemory>
    ensures { IfOk result (λ parts. flat_map (λ part. part.items) parts.items
        ≡ text.items ++ flat_map item_text items.now) }
{
    if items.len() < MANY * PIECE || current_num_threads(rt) == 1 {
        let text = with_lines(text, items, 0, gate)?;
        let mut parts = Vec::new(alloc);
        parts.push(text)?;
        return Ok(parts);
    }
    let mut parts = stretches(rt, alloc, items, gate)?;
    parts.insert(0, text)?;
    Ok(parts)
}
