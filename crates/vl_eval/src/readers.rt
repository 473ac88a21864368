ghost use Rattle.std.specs.Prelude.{◌≡◌, ◌<◌, ◌≤◌, ◌+◌, ◌*◌, ◌^◌, ℕ, IfOk, OnOk, length};
ghost use Rattle.vl_eval.specs.inner.Ops.{IsOrdered};
ghost use Rattle.vl_eval.specs.inner.Order.{each_of};
ghost use Rattle.vl_eval.specs.inner.Reading.{AreAdded, AreChains, AreReaders, HaveMarks, IsGrownBy, IsReader, IsUnmarked};

use crate::code::Code;
use crate::marks::{Marks, mark};
use crate::ops::Op;
use fx_io::OutOfMemory;
use std::alloc::Global;

/// An operation that reads a place, and the link behind: its number and 1, or 0 for none.
#[derive(Clone, Copy)]
pub struct Link {
    pub reader: u32,
    pub rest: u32,
}

/// Which operations read each place: the first link of a chain, told as in a `Link`.
#[derive(Drop)]
pub struct Readers {
    pub heads: Vec<u32>,
    pub links: Vec<Link>,
}

/// Adds a reader of a place.
fn put(readers: &mut Readers, place: usize, reader: u32) -> Result<(), OutOfMemory>
    requires within { place < length readers.old.heads.items }
    requires few { length readers.old.links.items < 2 ^ 24 }
    ensures grown { OnOk result (IsGrownBy 1 reader readers.old readers.new) }
    ensures reads { OnOk result (IsReader readers.new place reader) }
{
    let rest = readers.heads[place];
    readers.links.push(Link { reader, rest })?;
    readers.heads[place] = readers.links.len() as u32;
    Ok(())
}

/// Adds a reader of two places.
fn put_both(readers: &mut Readers, one: usize, other: usize, reader: u32) -> Result<(), OutOfMemory>
    requires one { one < length readers.old.heads.items }
    requires other { other < length readers.old.heads.items }
    requires few { length readers.old.links.items + 2 < 2 ^ 24 }
    ensures grown { OnOk result (IsGrownBy 2 reader readers.old readers.new) }
    ensures one { OnOk result (IsReader readers.new one reader) }
    ensures other { OnOk result (IsReader readers.new other reader) }
{
    put(readers, one, reader)?;
    put(readers, other, reader)
}

/// Adds an operation to the readers of what it reads.
fn put_reads(readers: &mut Readers, op: Op, reader: u32) -> Result<(), OutOfMemory>
    requires within { each_of (λ place. place < length readers.old.heads.items) op }
    requires few { length readers.old.links.items + 4 < 2 ^ 24 }
    ensures grown { OnOk result (IsGrownBy 4 reader readers.old readers.new) }
    ensures reads { OnOk result (each_of (λ place. IsReader readers.new place reader) op) }
{
    match op {
        Op::Constant(_) => Ok(()),
        Op::One(_, part) => put(readers, part, reader),
        Op::Two(_, left, right) | Op::Beside { left, right, .. } => {
            put_both(readers, left, right, reader)
        }
        Op::Choose {
            test,
            chosen,
            other,
        } => {
            put_both(readers, test, chosen, reader)?;
            put(readers, other, reader)
        }
        Op::Next(register) => {
            put_both(readers, register.reset, register.test, reader)?;
            put_both(readers, register.value, register.kept, reader)
        }
    }
}

/// The readers of each place.
pub fn readers_of(alloc: Global, base: usize, ops: &Code) -> Result<Readers, OutOfMemory>
    requires ordered { IsOrdered base ops.now }
    requires few { length ops.now ≤ 2 ^ 20 }
    ensures { IfOk result (AreReaders base (length ops.now) ops.now) }
{
    let Some(places) = base.checked_add(ops.len()) else {
        // word: words and operations are counted in 64 bits
        return Err(OutOfMemory);
    };
    let mut readers = Readers {
        heads: vec![in alloc; 0u32; places]?,
        links: Vec::new(alloc),
    };
    for number in 0..ops.len() {
        put_reads(&mut readers, ops.get(number), number as u32)?;
    }
    Ok(readers)
}

/// Marks the operations that read a place.
pub fn mark_readers(readers: &Readers, place: usize, marks: &mut Marks)
    requires marks { HaveMarks (length marks.old.each.items) marks.old }
    requires chains { AreChains (length marks.old.each.items) readers.now }
    requires within { place < length readers.now.heads.items }
    ensures added { AreAdded marks.old marks.new }
    ensures marked { (reader : ℕ) → IsReader readers.now place reader
        → IsUnmarked marks.new reader → ⊥ }
{
    let mut at = readers.heads[place] as usize;
    while at != 0 {
        let Link { reader, rest } = readers.links[at - 1];
        mark(marks, reader as usize);
        at = rest as usize;
    }
}
