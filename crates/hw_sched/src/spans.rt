//! The slots that periods have.
ghost use Rattle.std.specs.Prelude.{◌≡◌, ◌<◌, ℕ, IfOk, length, max, slice_get, slice_index};
ghost use Rattle.dg_model.specs.Attributes.{attributes_of};
ghost use Rattle.dg_model.specs.PlanOf.{IsPlanOf};
ghost use Rattle.hw_latency.specs.Weight.{samples as samples_of};
ghost use Rattle.hw_sched.specs.Slots.{shorter_into};
ghost use Rattle.hw_sched.specs.inner.Spans.{AreCounted, AreLongest, AreSpans};

use dg_model::{Checked, Edge, Resolved};
use dg_rates::joins_periods;
use fx_io::OutOfMemory;
use hw_latency::{block_at, samples};
use hw_slots::Span;
use std::alloc::Global;

/// How many periods are counted, from 0 on: one more than the longest.
fn count_of(checked: &Checked) -> usize
    ensures { AreCounted checked.now.diagram result }
{
    checked.keeps_rules();
    let mut longest = 0u64;
    for place in 0..checked.diagram().blocks.as_slice().len() {
        longest = longest.max(u64::from(samples(checked.period(place as u32))));
    }
    longest as usize + 1
}

/// The period of a line's source, where the line is a transition from a shorter period; else 0.
fn shorter_of(checked: &Checked, edge: Edge) -> u64
    requires from { edge.from < length checked.now.diagram.blocks }
    requires to { edge.to < length checked.now.diagram.blocks }
    ensures { result ≡ shorter_into (attributes_of checked.now.diagram)
        (samples_of ((attributes_of checked.now.diagram).period_at edge.to)) edge
        (slice_get checked.now.diagram.blocks edge.to) }
{
    let own = samples(checked.period(edge.to));
    let source = samples(checked.period(edge.from));
    if joins_periods(&block_at(checked, edge.to).kind) && source < own {
        u64::from(source)
    } else {
        0
    }
}

/// Raises the number of the period of a line's end to the shorter one that the line comes from.
fn raise(checked: &Checked, longest: &mut Vec<u64>, edge: Edge)
    requires from { edge.from < length checked.now.diagram.blocks }
    requires to { edge.to < length checked.now.diagram.blocks }
    requires counted { AreCounted checked.now.diagram (length longest.old.items) }
    ensures size { length longest.new.items ≡ length longest.old.items }
    ensures raised { (period : ℕ) → period < length longest.old.items
        → slice_index longest.new.items period ≡ max (slice_index longest.old.items period)
        (shorter_into (attributes_of checked.now.diagram) period edge
        (slice_get checked.now.diagram.blocks edge.to)) }
{
    let shorter = shorter_of(checked, edge);
    let place = samples(checked.period(edge.to)) as usize;
    longest[place] = longest[place].max(shorter);
}

/// By period, the longest of the shorter ones from which transitions lead into it, 0 without one.
fn longest_into(alloc: Global, checked: &Checked) -> Result<Vec<u64>, OutOfMemory>
    ensures { IfOk result (λ longest. AreLongest checked.now.diagram longest.items) }
{
    checked.keeps_rules();
    let mut longest = vec![in alloc; 0u64; count_of(checked)]?;
    for edge in checked.diagram().edges.as_slice() {
        raise(checked, &mut longest, *edge);
    }
    Ok(longest)
}

/// By period, the first slot that can serve an operation, and how many slots there are.
pub fn spans_of(alloc: Global, checked: &Checked, plan: &Resolved) -> Result<Vec<Span>, OutOfMemory>
    requires plan { IsPlanOf checked.now.diagram plan.now }
    ensures { IfOk result (λ spans. AreSpans checked.now.diagram plan.now spans.items) }
{
    let longest = longest_into(alloc, checked)?;
    let cycles = u64::from(plan.cycles);
    let mut spans = Vec::new(alloc);
    for period in 0..longest.len() {
        let clocks = period as u64 * cycles;
        spans.push(Span {
            start: longest[period] * cycles,
            have: clocks.saturating_sub(1),
        })?;
    }
    Ok(spans)
}
