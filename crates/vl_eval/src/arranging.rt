ghost use Rattle.std.specs.Prelude.{◌≡◌, ◌<◌, ◌≤◌, ◌+◌, ◌*◌, ◌^◌, ℕ, IfOk, OnOk, length, map, slice_index};
ghost use Rattle.vl_eval.specs.inner.Order.{AreEntries, ArePlaces, IsArranged, moved, moved_capture, number_of, op_at, renamed};
ghost use Rattle.vl_eval.specs.inner.Ops.{IsOrdered};

use crate::code::Code;
use crate::leveling::{kind_of, level_of};
use crate::merging::{Merged, merge};
use crate::ops::{Op, Register};
use crate::plan::Capture;
use fx_io::OutOfMemory;
use std::alloc::Global;

/// The most operations that are arranged. While that is done they stand twice, with a level, an entry
/// and a place for each. More keep the order in which they were built: an edge over so many waits for
/// memory anyway, and the order only makes it faster.
const MOST: usize = 1 << 20;

/// Operations in an order in which each stands behind those that it reads, with the places of names and
/// of captures.
#[derive(Drop)]
pub struct Arranged {
    pub ops: Code,
    pub slots: Vec<usize>,
    pub captures: Vec<Capture>,
}

/// The level, the kind and the number of an operation, in one number that is sorted by them in turn.
fn entry_of(level: usize, kind: u64, number: usize) -> u64
    requires level { level < 2 ^ 29 }
    requires kind { kind < 32 }
    requires number { number < 2 ^ 29 }
    ensures { result ≡ (level * 32 + kind) * 2 ^ 29 + number }
{
    (level as u64 * 32 + kind) * (1 << 29) + number as u64
}

/// The entries of operations.
fn entries(alloc: Global, ops: &Code, base: usize) -> Result<Vec<u64>, OutOfMemory>
    requires ordered { IsOrdered base ops.now }
    requires few { length ops.now ≤ 2 ^ 29 }
    ensures { IfOk result (λ entries. AreEntries base ops.now entries.items) }
{
    let mut levels = Vec::new(alloc);
    let mut entries = Vec::new(alloc);
    for number in 0..ops.len() {
        let op = ops.get(number);
        let level = level_of(op, base, levels.as_slice());
        levels.push(level)?;
        entries.push(entry_of(level, kind_of(op), number))?;
    }
    Ok(entries)
}

/// The number of an operation from its entry.
fn number_of(entry: u64) -> usize
    ensures { result ≡ number_of entry }
{
    (entry % (1 << 29)) as usize
}

/// By the number of each operation, its place among the entries.
fn places_of(alloc: Global, entries: &[u64], base: usize) -> Result<Vec<usize>, OutOfMemory>
    requires numbers { (i : ℕ) → i < length entries.now
        → number_of (slice_index entries.now i) < length entries.now }
    requires end { base + length entries.now < 2 ^ 64 }
    ensures { IfOk result (λ places. ArePlaces base entries.now (length entries.now) places.items) }
{
    let mut places = vec![in alloc; 0; entries.len()]?;
    for (place, entry) in entries.iter().enumerate() {
        places[number_of(*entry)] = base + place;
    }
    Ok(places)
}

/// Where what stood at a place stands in the new order.
fn new_place(place: usize, base: usize, places: &[usize]) -> usize
    ensures { result ≡ moved base places.now place }
{
    if place < base {
        return place;
    }
    match places.get(place - base) {
        Some(moved) => *moved,
        None => 0,
    }
}

/// The same operation over the new places.
pub fn renamed_op(op: Op, base: usize, moves: &[usize]) -> Op
    ensures { result ≡ renamed (moved base moves.now) op }
{
    match op {
        Op::Constant(bits) => Op::Constant(bits),
        Op::One(of, part) => Op::One(of, new_place(part, base, moves)),
        Op::Two(of, left, right) => {
            Op::Two(
                of,
                new_place(left, base, moves),
                new_place(right, base, moves),
            )
        }
        Op::Beside {
            left,
            right,
            places,
        } => Op::Beside {
            left: new_place(left, base, moves),
            right: new_place(right, base, moves),
            places,
        },
        Op::Choose {
            test,
            chosen,
            other,
        } => Op::Choose {
            test: new_place(test, base, moves),
            chosen: new_place(chosen, base, moves),
            other: new_place(other, base, moves),
        },
        Op::Next(register) => Op::Next(Register {
            reset: new_place(register.reset, base, moves),
            first: register.first,
            test: new_place(register.test, base, moves),
            value: new_place(register.value, base, moves),
            kept: new_place(register.kept, base, moves),
        }),
    }
}

/// The operations in the order of their entries.
fn in_order(
    alloc: Global,
    ops: &Code,
    entries: &[u64],
    base: usize,
    places: &[usize],
) -> Result<Code, OutOfMemory>
    requires { (i : ℕ) → i < length entries.now
        → number_of (slice_index entries.now i) < length ops.now }
    ensures { IfOk result (λ arranged. arranged
        ≡ map (op_at base places.now ops.now) entries.now) }
{
    let mut arranged = Code::new(alloc);
    for entry in entries {
        arranged.push(renamed_op(ops.get(number_of(*entry)), base, places))?;
    }
    Ok(arranged)
}

/// Moves the places of names.
fn move_slots(slots: &mut [usize], base: usize, places: &[usize])
    ensures { slots.new ≡ map (moved base places.now) slots.old }
{
    for k in 0..slots.len() {
        slots[k] = new_place(slots[k], base, places);
    }
}

/// Moves the places of captures.
fn move_captures(captures: &mut [Capture], base: usize, places: &[usize])
    ensures { captures.new ≡ map (moved_capture (moved base places.now)) captures.old }
{
    for k in 0..captures.len() {
        let Capture { from, to } = captures[k];
        captures[k] = Capture {
            from: new_place(from, base, places),
            to: new_place(to, base, places),
        };
    }
}

/// Leaves out operations that do what an earlier one does.
fn unite(alloc: Global, base: usize, built: &mut Arranged) -> Result<(), OutOfMemory>
    requires ordered { IsOrdered base built.old.ops }
    requires few { length built.old.ops ≤ 2 ^ 20 }
    ensures { OnOk result (IsArranged base built.old built.new) }
{
    let Some(_end) = base.checked_add(built.ops.len()) else {
        // word: words and operations are counted in 64 bits
        return Err(OutOfMemory);
    };
    let united = merge(alloc, base, &built.ops)?;
    let Merged { ops, places } = united;
    move_slots(built.slots.as_mut_slice(), base, places.as_slice());
    move_captures(built.captures.as_mut_slice(), base, places.as_slice());
    built.ops = ops;
    Ok(())
}

/// Sorts operations that aren't too many for it.
fn rearrange(alloc: Global, base: usize, built: &mut Arranged) -> Result<(), OutOfMemory>
    requires ordered { IsOrdered base built.old.ops }
    requires few { length built.old.ops ≤ 2 ^ 29 }
    ensures { OnOk result (IsArranged base built.old built.new) }
{
    let Some(_end) = base.checked_add(built.ops.len()) else {
        // word: words and operations are counted in 64 bits
        return Err(OutOfMemory);
    };
    let mut entries = entries(alloc, &built.ops, base)?;
    entries.sort_unstable();
    let places = places_of(alloc, entries.as_slice(), base)?;
    let ops = in_order(
        alloc,
        &built.ops,
        entries.as_slice(),
        base,
        places.as_slice(),
    )?;
    move_slots(built.slots.as_mut_slice(), base, places.as_slice());
    move_captures(built.captures.as_mut_slice(), base, places.as_slice());
    built.ops = ops;
    Ok(())
}

/// Leaves out repeated operations, and sorts the others.
fn unite_and_sort(alloc: Global, base: usize, built: &mut Arranged) -> Result<(), OutOfMemory>
    requires ordered { IsOrdered base built.old.ops }
    requires few { length built.old.ops ≤ 2 ^ 20 }
    ensures { OnOk result (IsArranged base built.old built.new) }
{
    unite(alloc, base, built)?;
    rearrange(alloc, base, built)
}

/// Leaves out operations that do what an earlier one does, and sorts the others by level and, within a
/// level, by kind, so that the jump on the kind of an operation is foreseen. An operation is of a level
/// above those that it reads.
pub fn arrange(alloc: Global, base: usize, mut built: Arranged) -> Result<Arranged, OutOfMemory>
    requires { IsOrdered base built.ops }
    ensures { IfOk result (IsArranged base built) }
{
    if built.ops.len() > MOST {
        return Ok(built);
    }
    match unite_and_sort(alloc, base, &mut built) {
        Ok(()) => Ok(built),
        Err(wanting) => {
            drop(built);
            Err(wanting)
        }
    }
}
