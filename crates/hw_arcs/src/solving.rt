ghost use Rattle.std.specs.Prelude.{◌≡◌, ◌*◌, ◌≤◌, ◌^◌, [], IfNone, IfOk, IfSome};
ghost use Rattle.std.specs.Prelude.{MatchOption, OnOk, length};
ghost use Rattle.hw_arcs.specs.Latencies.{IsFeasible, latency_at};
ghost use Rattle.hw_arcs.specs.Found.{AreKnown, IsFound, IsGaining, IsWhole, most_gain, most_joined_blocks};
ghost use Rattle.hw_arcs.specs.declared.found.Found.TheVariants.{Gains, Least};
ghost use Rattle.hw_arcs.specs.inner.State.{AreRows, AreSettled, AreWithin, CanGoBack, IsState, seen};

use crate::arc::Arc;
use crate::found::{Found, Gaining};
use crate::parts::parts_of;
use crate::relaxing::{Relaxing, Step};
use crate::ring::{total_of, turn_back};
use crate::walking::walk_back;
use fx_io::{Longs, OutOfMemory, Periods, Sizes, empty_rows, push_at};
use std::alloc::Global;

/// The most that an arc gains: 64 registers and one base sample more, of a period below 2^32.
const MOST_GAIN: u64 = 279_172_874_240;

/// By block, the numbers of the arcs that lead from it and count.
fn rows_of(alloc: Global, arcs: &[Arc], count: usize) -> Result<Vec<Sizes>, OutOfMemory>
    requires known { AreKnown arcs.now count }
    requires few { length arcs.now ≤ 2 ^ 32 }
    ensures { IfOk result (λ rows. AreRows arcs.now count rows.items) }
{
    let mut rows = empty_rows(alloc, count)?;
    for (number, arc) in arcs.iter().enumerate() {
        let arc = *arc;
        if arc.counts {
            push_at(&mut rows, arc.from, number as u32)?;
        }
    }
    Ok(rows)
}

/// The cycle that is met on the way back from a block along the arcs that gave the latencies.
fn cycle_behind(
    alloc: Global,
    arcs: &[Arc],
    state: &Relaxing,
    first: u32,
) -> Result<Option<Gaining>, OutOfMemory>
    requires { CanGoBack arcs.now (seen state.now) first }
    ensures gaining { IfOk result (λ found. IfSome found (IsGaining arcs.now)) }
    ensures none { IfOk result (λ found. IfNone found
        (latency_at state.now.lat.items first ≤ length state.now.lat.items * most_gain)) }
{
    let tight = state.tight.as_slice();
    let mut path = Vec::new(alloc);
    let Some(place) = walk_back(alloc, arcs, tight, first, &mut path)? else {
        return Ok(None);
    };
    let (_, ring) = path.as_slice().split_at(place);
    let blocks = turn_back(alloc, ring)?;
    let total = total_of(arcs, tight, ring);
    Ok(Some(Gaining { blocks, total }))
}

/// Looks at blocks until each arc is kept, or a cycle is found that gains. After as many steps as
/// there are blocks, and twice as many each time, a cycle is looked for.
fn relax_all(
    alloc: Global,
    arcs: &[Arc],
    rows: &[Sizes],
    state: &mut Relaxing,
) -> Result<Option<Gaining>, OutOfMemory>
    requires known { AreKnown arcs.now (length state.old.lat.items) }
    requires rows { AreRows arcs.now (length state.old.lat.items) rows.now }
    requires few { length state.old.lat.items ≤ most_joined_blocks }
    requires state { IsState arcs.now (length state.old.lat.items) (seen state.old) }
    requires within { AreWithin 0 (seen state.old) }
    requires settled { AreSettled arcs.now (seen state.old) [] }
    ensures state { OnOk result (IsState arcs.now (length state.old.lat.items) (seen state.new)) }
    ensures found { IfOk result (λ found.
        MatchOption found (IsFeasible arcs.now state.new.lat.items) (IsGaining arcs.now)) }
{
    let limit = rows.len() as u64 * MOST_GAIN;
    let mut due = rows.len();
    let mut left = due;
    'relax: loop {
        match state.step(arcs, rows, limit)? {
            Step::Done => return Ok(None),
            // a latency that is greater than any way without a cycle could make it: there is one
            Step::Above { block } => return cycle_behind(alloc, arcs, state, block),
            Step::Settled { block } => {
                if left > 0 {
                    left -= 1;
                } else {
                    due = due.saturating_mul(2);
                    left = due;
                    if let Some(gaining) = cycle_behind(alloc, arcs, state, block)? {
                        return Ok(Some(gaining));
                    }
                }
            }
        }
    }
}

/// What the end of a relaxation tells.
fn found_of(gaining: Option<Gaining>, state: Relaxing) -> Found
    ensures { MatchOption gaining (result ≡ Least state.lat.items state.tight.items)
        (λ cycle. result ≡ Gains cycle) }
{
    match gaining {
        Some(cycle) => Found::Gains(cycle),
        None => {
            let Relaxing {
                lat,
                tight,
                pending: _,
                queue: _,
            } = state;
            Found::Least {
                lat: Longs::from_vec(lat),
                tight: Periods::from_vec(tight),
            }
        }
    }
}

/// The least latencies that arcs leave, each above 0 with an arc that asks for it; or a cycle along
/// which they gain, and which leaves none. Parts of blocks that lead to one another are settled one
/// by one, behind all that lead to them: its time is linear in the arcs between parts, but for a
/// sorting of the blocks, and within a part its arcs times the longest way of latencies that rise
/// at worst. An order of the blocks says which of equal ways is told.
pub fn latencies(
    alloc: Global,
    arcs: &[Arc],
    order: &[u32],
    count: usize,
) -> Result<Found, OutOfMemory>
    requires known { AreKnown arcs.now count }
    requires few { length arcs.now ≤ 2 ^ 32 }
    requires small { count ≤ most_joined_blocks }
    requires whole { IsWhole order.now count }
    ensures { IfOk result (IsFound arcs.now count) }
{
    let table = rows_of(alloc, arcs, count)?;
    let rows = table.as_slice();
    let placed = parts_of(alloc, arcs, rows, order)?;
    let mut state = Relaxing::begin(alloc, placed, count)?;
    let gaining = relax_all(alloc, arcs, rows, &mut state)?;
    Ok(found_of(gaining, state))
}
