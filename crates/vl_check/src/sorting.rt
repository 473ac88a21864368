ghost use Rattle.std.specs.Prelude.{◌≡◌, ◌<◌, ◌+◌, ◌-◌, ◌^◌, ℕ, [], IfOk, length, option_map, slice_index};
ghost use Rattle.vl_check.specs.inner.Order.{AreKnown};
ghost use Rattle.fx_io.specs.Rows.{row_at};
ghost use Rattle.vl_check.specs.inner.SortAnswer.{IsSorted};
ghost use Rattle.vl_check.specs.inner.Walks.{IsSearched, IsTurned, State, size};

use crate::names::put;
use fx_io::{OutOfMemory, Sequence};
use std::alloc::Global;

/// Numbers in an order in which each stands behind those that it reads, or some that read each other in a cycle.
#[derive(Drop)]
pub enum Sorted {
    Order(Vec<usize>),
    Cycle(Vec<usize>),
}

/// Where the number stands.
pub fn place_of(stack: &[usize], x: usize) -> usize
    requires { (k : ℕ) × (k < length stack.now) × (slice_index stack.now k ≡ x) }
    ensures low { result < length stack.now }
    ensures found { slice_index stack.now result ≡ x }
{
    let mut at = 0;
    while stack[at] != x {
        at += 1;
    }
    at
}

/// How many a number reads.
fn count_of(reads: &[Sequence<usize>], v: usize) -> usize
    requires { v < length reads.now }
    ensures is { result ≡ size reads.now v }
    ensures small { result < 2 ^ 62 }
{
    reads[v].as_slice().len()
}

/// What a number reads at a place.
fn read_at(reads: &[Sequence<usize>], v: usize, k: usize) -> usize
    requires known { AreKnown reads.now }
    requires number { v < length reads.now }
    requires place { k < size reads.now v }
    ensures is { result ≡ slice_index (row_at reads.now v) k }
    ensures within { result < length reads.now }
{
    reads[v].as_slice()[k]
}

/// One step of the search: the last open number is placed, passes a read, or opens one; or it reads an open one, and
/// the answer is the place of that.
fn turn(
    reads: &[Sequence<usize>],
    stage: &mut [usize],
    stack: &mut Vec<usize>,
    order: &mut Vec<usize>,
) -> Result<Option<usize>, OutOfMemory>
    requires known { AreKnown reads.now }
    requires state { State reads.now stage.now stack.now.items order.now.items }
    requires some { 0 < length stack.now.items }
    ensures { IfOk result (λ found. IsTurned reads.now stage.old stage.new stack.new.items
        order.new.items found) }
{
    let top = stack.as_slice().len() - 1;
    let v = stack[top];
    let at = stage[v];
    if at > count_of(reads, v) {
        put(order, v)?;
        stack.truncate(top);
        stage[v] = at + 1;
        return Ok(None);
    }
    let x = read_at(reads, v, at - 1);
    let seen = stage[x];
    if seen == 0 {
        put(stack, x)?;
        stage[x] = seen + 1;
        return Ok(None);
    }
    if seen == count_of(reads, x) + 2 {
        stage[v] = at + 1;
        return Ok(None);
    }
    Ok(Some(place_of(stack.as_slice(), x)))
}

/// Searches in depth from a number that was not met.
fn search(
    alloc: Global,
    reads: &[Sequence<usize>],
    root: usize,
    stage: &mut [usize],
    order: &mut Vec<usize>,
) -> Result<Option<Vec<usize>>, OutOfMemory>
    requires known { AreKnown reads.now }
    requires state { State reads.now stage.now [] order.now.items }
    requires root { root < length reads.now }
    requires white { slice_index stage.now root ≡ 0 }
    ensures { IfOk result (λ cycle. IsSearched reads.now stage.old stage.new order.new.items root
        (option_map (λ c. c.items) cycle)) }
{
    let mut stack = Vec::new(alloc);
    put(&mut stack, root)?;
    stage[root] = 1;
    while !stack.as_slice().is_empty() {
        if let Some(at) = turn(reads, stage, &mut stack, order)? {
            return Ok(Some(stack.split_off(at)?));
        }
    }
    Ok(None)
}

/// Numbers in an order in which each stands behind those that it reads, or a cycle of them. The time is linear in
/// the numbers and what they read.
pub fn sort(alloc: Global, reads: &[Sequence<usize>]) -> Result<Sorted, OutOfMemory>
    requires { AreKnown reads.now }
    ensures { IfOk result (λ sorted. IsSorted reads.now sorted) }
{
    let mut stage = vec![in alloc; 0usize; reads.len()]?;
    let mut order = Vec::new(alloc);
    for root in 0..reads.len() {
        if stage[root] == 0 {
            if let Some(cycle) = search(alloc, reads, root, stage.as_mut_slice(), &mut order)? {
                return Ok(Sorted::Cycle(cycle));
            }
        }
    }
    Ok(Sorted::Order(order))
}
