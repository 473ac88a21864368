ghost use Rattle.std.specs.Prelude.{◌≡◌, ◌<◌, ◌≤◌, ◌+◌, IfOk, IfSome, None, length};
ghost use Rattle.std.specs.List.{AllZip, range_with_len};
ghost use Rattle.hw_explore.specs.Candidates.{IsFinding};
ghost use Rattle.hw_explore.specs.Findings.{AreFindings, IsLeast, IsRanked};
ghost use Rattle.hw_explore.specs.declared.rank.Rank.{Rank};
ghost use Rattle.hw_explore.specs.inner.Best.{IsBest};
ghost use Rattle.hw_explore.specs.inner.Latencies.{AreTimed, CanFind};
ghost use Rattle.hw_explore.specs.Range.{IsRange, most_pairs, pairs_of};

use crate::finding::{Finding, Judged};
use crate::findings::{FindingRows, Findings};
use crate::judging::finding_at;
use crate::range::Range;
use crate::rank::Rank;
use crate::timed::BySharing;
use dg_model::Checked;
use fx_io::{Gate, OutOfMemory};
use rayon::prelude::*;
use std::alloc::Global;
use std::thread::Threads;

/// The best plan so far.
#[derive(Clone, Copy)]
struct Best {
    place: u32,
    rank: Rank,
}

/// The rank of a good plan.
fn rank_of(finding: &Finding) -> Option<Rank>
    ensures ranked { IfSome result (IsRanked finding.now) }
    ensures bad { result ≡ None → (rank : Rank) → ¬ IsRanked finding.now rank }
{
    match &finding.verdict {
        Judged::Good { owed, latency } => Some(Rank {
            multiplications: *owed,
            cycles: finding.cycles,
            latency: *latency,
            multipliers: finding.multipliers,
        }),
        Judged::Bad { .. } => None,
    }
}

/// The best plan with this one, which stands there, beside the best before it.
fn best_with(rows: &[Finding], place: u32, best: Option<Best>) -> Option<Best>
    requires there { place < length rows.now }
    requires best { IsBest rows.now place best }
    ensures { IsBest rows.now (place + 1) result }
{
    let Some(rank) = rank_of(&rows[place as usize]) else {
        return best;
    };
    match best {
        None => Some(Best { place, rank }),
        Some(other) => {
            if rank.is_better(&other.rank) {
                Some(Best { place, rank })
            } else {
                Some(other)
            }
        }
    }
}

/// The number of the least good plan.
fn least_of(rows: &[Finding]) -> Option<u32>
    requires { length rows.now ≤ most_pairs }
    ensures { IsLeast rows.now result }
{
    let mut best: Option<Best> = None;
    for place in 0..rows.len() {
        best = best_with(rows, place as u32, best);
    }
    match best {
        None => None,
        Some(Best { place, .. }) => Some(place),
    }
}

/// What is found of each plan, by workers.
fn all_found<R: Threads + Sync, G: Gate + Sync>(
    rt: &R,
    alloc: Global,
    checked: &Checked,
    timed: &BySharing,
    range: Range,
    gate: &G,
) -> Result<FindingRows, OutOfMemory>
    requires timed { AreTimed checked.now.diagram timed.now }
    requires range { IsRange range }
    ensures { IfOk result (λ rows. AllZip (IsFinding checked.now.diagram range)
        (range_with_len 0 (pairs_of range)) rows) }
{
    let pairs = range.pairs();
    let rows: Result<Vec<Finding>, OutOfMemory> = (0..pairs)
        .into_par_iter()
        .with_min_len(1)
        .map(
            |place: u32| -> Result<Finding, OutOfMemory>
                requires { CanFind checked.now.diagram timed.now range place }
                ensures { IfOk result (IsFinding checked.entry.now.diagram range place) }
            {
                gate.pass(u64::from(place));
                finding_at(alloc, checked, timed, range, place)
            },
        )
        .collect(rt, alloc)?;
    Ok(FindingRows::from_vec(rows?))
}

/// What is found of all plans of a range that set no registers, by parallel workers, and the least of
/// them: the one of fewest multiplications, then of fewest clocks, least latency and fewest
/// multipliers. The worker of a plan passes `gate` before it, by the plan's number. The only error is
/// want of memory.
pub fn explore<R: Threads + Sync, G: Gate + Sync>(
    rt: &R,
    alloc: Global,
    checked: &Checked,
    range: Range,
    gate: &G,
) -> Result<Findings, OutOfMemory>
    requires { IsRange range }
    ensures { IfOk result (AreFindings checked.now.diagram range) }
{
    let timed = BySharing::of(alloc, checked)?;
    let rows = all_found(rt, alloc, checked, &timed, range, gate);
    drop(timed);
    let rows = rows?;
    let least = least_of(rows.as_slice());
    Ok(Findings { rows, least })
}
