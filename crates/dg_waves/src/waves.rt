ghost use Rattle.std.specs.Prelude.{◌≡◌, ◌≢◌, ℕ, ◌^◌, ◌<◌, ◌≤◌, ◌↔◌, true, List, [], Some, All, length, slice_get, MatchOption, IfSome, IfOk, OnOk};
ghost use Rattle.dg_waves.specs.Rounds.{round as round_of, after_rounds as after_rounds_of};
ghost use Rattle.dg_waves.specs.inner.Waves.{is_in, written, marked_count, Sought, MarkedWait, ReadersMarked, Marked, IsBetween};

use std::alloc::{AllocError, Global};

/// A block and the value that it takes.
#[derive(Clone, Copy)]
pub struct Change<V> {
    pub block: u32,
    pub value: V,
}

/// What each block takes in a round, and which blocks look at it.
pub trait Round {
    type Value: Copy;

    ghost count: { Self → ℕ };

    ghost IsValue: { Self → Self.Value → Type 0 };

    ghost next: { Self → List Self.Value → ℕ → Self.Value };

    ghost readers_of: { Self → ℕ → List ℕ };

    /// What a block takes from the values of the round before.
    fn next(&self, values: &[Self::Value], block: u32) -> Self::Value
        requires all { length values.now ≡ count self.now }
        requires there { block < count self.now }
        requires fit { All (IsValue self.now) values.now }
        ensures { result ≡ next self.now values.now block };

    /// The blocks that look at a block's value.
    fn readers(&self, block: u32) -> &[u32]
        requires there { block < count self.now }
        ensures { result.now ≡ readers_of self.now block };

    /// Whether two values are the same.
    fn is_same(&self, left: Self::Value, right: Self::Value) -> bool
        ensures { (result ≡ true) ↔ (left ≡ right) };

    ghost readers_there: { (round : Self) (block : ℕ) → block < count round
        → All (λ reader. reader < count round) (readers_of round block) };

    ghost fit: { (round : Self) (values : List Self.Value) (block : ℕ) → length values ≡ count round
        → block < count round → All (IsValue round) values
        → IsValue round (next round values block) };

    ghost local: { (round : Self) (old new : List Self.Value) (block : ℕ) → length old ≡ count round
        → length new ≡ count round → block < count round
        → ((source : ℕ) → is_in block (readers_of round source) ≡ true
        → slice_get old source ≡ slice_get new source)
        → next round old block ≡ next round new block };
}

/// What a block takes in the next round, where that is another value.
fn other_value<R: Round>(round: &R, values: &[R::Value], block: u32) -> Option<R::Value>
    requires size { length values.now ≡ R.count round.now }
    requires there { block < R.count round.now }
    requires fit { All (R.IsValue round.now) values.now }
    ensures next { MatchOption result (slice_get values.now block
        ≡ Some (R.next round.now values.now block))
        (λ value. value ≡ R.next round.now values.now block) }
    ensures other { IfSome result (λ value. slice_get values.now block ≢ Some value) }
{
    let value = round.next(values, block);
    if round.is_same(value, values[block as usize]) {
        None
    } else {
        Some(value)
    }
}

/// The waiting blocks that take another value, each with its value. No block stays marked.
fn changes<R: Round>(
    alloc: Global,
    round: &R,
    values: &[R::Value],
    waiting: &[u32],
    marks: &mut [bool],
) -> Result<Vec<Change<R::Value>>, AllocError>
    requires between { IsBetween (R.count round.now) (R.IsValue round.now)
        (R.next round.now) values.now waiting.now marks.old }
    ensures sought { IfOk result (λ found. Sought (R.next round.now) values.now found.items []) }
    ensures there { IfOk result (λ found. All
        (λ change. change.block < R.count round.now) found.items) }
    ensures none { OnOk result (MarkedWait marks.new []) }
{
    let mut found: Vec<Change<R::Value>> = Vec::new(alloc);
    for block in waiting {
        let block = *block;
        marks[block as usize] = false;
        if let Some(value) = other_value(round, values, block) {
            found.push(Change { block, value })?;
        }
    }
    Ok(found)
}

/// Lets blocks wait, each once: as many wait as are marked.
fn let_wait(blocks: &[u32], waiting: &mut Vec<u32>, marks: &mut [bool]) -> Result<(), AllocError>
    requires blocks_there { All (λ block. block < length marks.old) blocks.now }
    requires there { All (λ block. block < length marks.old) waiting.old.items }
    requires wait { MarkedWait marks.old waiting.old.items }
    requires once { length waiting.old.items ≡ marked_count marks.old }
    ensures there { OnOk result (All (λ block. block < length marks.old) waiting.new.items) }
    ensures wait { OnOk result (MarkedWait marks.new waiting.new.items) }
    ensures once { OnOk result (length waiting.new.items ≡ marked_count marks.new) }
    ensures marked { OnOk result (Marked marks.old marks.new blocks.now []) }
{
    for block in blocks {
        let block = *block;
        if !marks[block as usize] {
            marks[block as usize] = true;
            waiting.push(block)?;
        }
    }
    Ok(())
}

/// Writes the changes, and lets the readers of each changed block wait.
fn write<R: Round>(
    round: &R,
    changes: &[Change<R::Value>],
    values: &mut [R::Value],
    waiting: &mut Vec<u32>,
    marks: &mut [bool],
) -> Result<(), AllocError>
    requires size { length values.old ≡ R.count round.now }
    requires marks_size { length marks.old ≡ R.count round.now }
    requires changes_there { All (λ change. change.block < R.count round.now) changes.now }
    requires there { All (λ block. block < R.count round.now) waiting.old.items }
    requires wait { MarkedWait marks.old waiting.old.items }
    requires once { length waiting.old.items ≡ marked_count marks.old }
    ensures written { OnOk result (values.new ≡ written changes.now values.old) }
    ensures there { OnOk result (All (λ block. block < R.count round.now) waiting.new.items) }
    ensures wait { OnOk result (MarkedWait marks.new waiting.new.items) }
    ensures once { OnOk result (length waiting.new.items ≡ marked_count marks.new) }
    ensures marked { OnOk result (ReadersMarked (R.readers_of round.now) marks.new changes.now []) }
{
    for change in changes {
        values[change.block as usize] = change.value;
        let_wait(round.readers(change.block), waiting, marks)?;
    }
    Ok(())
}

/// One wave: each block that waits takes what it takes in the next round, and the readers of those
/// that changed wait then, no more than there are blocks.
fn wave<R: Round>(
    alloc: Global,
    round: &R,
    values: &mut [R::Value],
    waiting: &mut Vec<u32>,
    marks: &mut [bool],
) -> Result<(), AllocError>
    requires between { IsBetween (R.count round.now) (R.IsValue round.now)
        (R.next round.now) values.old waiting.old.items marks.old }
    ensures round { OnOk result (values.new ≡ round_of (R.next round.now) values.old) }
    ensures between { OnOk result (IsBetween (R.count round.now) (R.IsValue round.now)
        (R.next round.now) values.new waiting.new.items marks.new) }
    ensures few { OnOk result (length waiting.new.items ≤ R.count round.now) }
{
    let found = changes(alloc, round, values, waiting.as_slice(), marks)?;
    waiting.clear();
    write(round, found.as_slice(), values, waiting, marks)?;
    Ok(())
}

/// All of so many blocks.
fn all_blocks(alloc: Global, count: usize) -> Result<Vec<u32>, AllocError>
    requires few { count < 2 ^ 32 }
    ensures there { IfOk result (λ blocks. All (λ block. block < count) blocks.items) }
    ensures all { IfOk result (λ blocks. (block : ℕ) → block < count
        → is_in block blocks.items ≡ true) }
{
    let mut blocks: Vec<u32> = Vec::new(alloc);
    for block in 0..count {
        blocks.push(block as u32)?;
    }
    Ok(blocks)
}

/// The values after so many rounds.
pub fn after_rounds<R: Round>(
    alloc: Global,
    round: &R,
    start: Vec<R::Value>,
    rounds: u32,
) -> Result<Vec<R::Value>, AllocError>
    requires size { length start.items ≡ R.count round.now }
    requires few { R.count round.now < 2 ^ 32 }
    requires fit { All (R.IsValue round.now) start.items }
    ensures fit { IfOk result (λ after. All (R.IsValue round.now) after.items) }
    ensures values { IfOk result (λ after. after.items
        ≡ after_rounds_of (R.next round.now) rounds start.items) }
{
    let mut values = start;
    let mut waiting = all_blocks(alloc, values.len())?;
    let mut marks = vec![in alloc; false; values.len()]?;
    for k in 0..rounds {
        wave(
            alloc,
            round,
            values.as_mut_slice(),
            &mut waiting,
            marks.as_mut_slice(),
        )?;
    }
    Ok(values)
}
