ghost use Rattle.std.specs.Prelude.{◌≡◌, ◌<◌, ◌≤◌, ◌+◌, ◌^◌, ℕ, length, slice_index, slice_set, take};
ghost use Rattle.vl_eval.specs.inner.Ops.{IsOrdered, IsSettled};
ghost use Rattle.vl_eval.specs.inner.Reading.{AreAdded, AreChains, AreReaders, AreSpared, HaveMarks, IsReader, IsUnmarked};

use crate::code::Code;
use crate::marks::{BLOCK, Marks, unmark, unmark_block};
use crate::readers::{Readers, mark_readers};

/// Puts a word at a place, and marks the operations that read it, unless it stands there.
pub fn write(readers: &Readers, marks: &mut Marks, values: &mut [u128], place: usize, value: u128)
    requires marks { HaveMarks (length marks.old.each.items) marks.old }
    requires chains { AreChains (length marks.old.each.items) readers.now }
    requires place { place < length readers.now.heads.items }
    requires within { place < length values.old }
    ensures values { values.new ≡ slice_set values.old place value }
    ensures added { AreAdded marks.old marks.new }
    ensures marked { (reader : ℕ) → IsReader readers.now place reader → IsUnmarked marks.new reader
        → slice_index values.old place ≡ value }
{
    if values[place] == value {
        return;
    }
    values[place] = value;
    mark_readers(readers, place, marks);
}

/// Works out the operation of a number.
fn renew(
    code: &Code,
    readers: &Readers,
    marks: &mut Marks,
    base: usize,
    number: usize,
    values: &mut [u128],
)
    requires low { number < length code.now }
    requires marks { HaveMarks (length code.now) marks.old }
    requires readers { AreReaders base (length code.now) code.now readers.now }
    requires room { length values.old ≡ base + length code.now }
    requires ordered { IsOrdered base code.now }
    requires spared { AreSpared base number code.now marks.old values.old }
    ensures spared { AreSpared base (number + 1) code.now marks.new values.new }
    ensures marks { HaveMarks (length code.now) marks.new }
    ensures kept { take base values.new ≡ take base values.old }
    ensures long { length values.new ≡ length values.old }
{
    let value = code.value(number, values);
    unmark(marks, number);
    write(readers, marks, values, base + number, value);
}

/// Works out the marked operations of some that stand together, and tells how many they are.
fn sweep_block(
    code: &Code,
    readers: &Readers,
    marks: &mut Marks,
    base: usize,
    from: usize,
    to: usize,
    values: &mut [u128],
) -> usize
    requires rises { from ≤ to }
    requires low { to ≤ length code.now }
    requires marks { HaveMarks (length code.now) marks.old }
    requires readers { AreReaders base (length code.now) code.now readers.now }
    requires room { length values.old ≡ base + length code.now }
    requires ordered { IsOrdered base code.now }
    requires spared { AreSpared base from code.now marks.old values.old }
    ensures spared { AreSpared base to code.now marks.new values.new }
    ensures marks { HaveMarks (length code.now) marks.new }
    ensures kept { take base values.new ≡ take base values.old }
    ensures long { length values.new ≡ length values.old }
{
    let mut worked: usize = 0;
    for number in from..to {
        if marks.each[number] {
            renew(code, readers, marks, base, number, values);
            worked = worked.saturating_add(1);
        }
    }
    worked
}

/// Works out the marked operations and those that read what changes, and tells how many they are.
/// Those before the first marked one have their values.
pub fn sweep_marked(
    code: &Code,
    readers: &Readers,
    marks: &mut Marks,
    base: usize,
    values: &mut [u128],
) -> usize
    requires few { length code.now ≤ 2 ^ 20 }
    requires marks { HaveMarks (length code.now) marks.old }
    requires readers { AreReaders base (length code.now) code.now readers.now }
    requires room { length values.old ≡ base + length code.now }
    requires ordered { IsOrdered base code.now }
    requires spared { AreSpared base 0 code.now marks.old values.old }
    ensures settled { IsSettled base code.now (λ k. slice_index values.new k) }
    ensures marks { HaveMarks (length code.now) marks.new }
    ensures kept { take base values.new ≡ take base values.old }
    ensures long { length values.new ≡ length values.old }
{
    let mut worked: usize = 0;
    for block in 0..marks.blocks.len() {
        if marks.blocks[block] {
            let from = block * BLOCK;
            let to = (from + BLOCK).min(code.len());
            let more = sweep_block(code, readers, marks, base, from, to, values);
            worked = worked.saturating_add(more);
            unmark_block(marks, block);
        }
    }
    worked
}
