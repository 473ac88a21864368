ghost use Rattle.std.specs.Prelude.{◌≡◌, ◌<◌, IfOk, length};
ghost use Rattle.dg_model.specs.Attributes.{attributes_of};
ghost use Rattle.dg_model.specs.declared.resolved.Resolved.{Resolved};
ghost use Rattle.hw_sched.specs.Ready.{AreReady, ready_of as ready_of_block};
ghost use Rattle.hw_sched.specs.Answer.{timing_of};
ghost use Rattle.hw_sched.specs.inner.Service.{AreBases};

use dg_model::Checked;
use fx_io::{Longs, OutOfMemory};
use hw_latency::{Latencies, samples};
use hw_slots::Bases;
use std::alloc::Global;

/// The clock of its period at which a block's output is ready.
fn ready_at(
    checked: &Checked,
    latencies: &Latencies,
    depths: &[u64],
    bases: &Bases,
    place: u32,
) -> u64
    requires fed { length latencies.now.fed ≡ length checked.now.diagram.blocks }
    requires depths { length depths.now ≡ length checked.now.diagram.blocks }
    requires there { place < length checked.now.diagram.blocks }
    ensures { (plan : Resolved)
        → AreBases checked.now.diagram plan (timing_of latencies.now depths.now) bases.now
        → result ≡ ready_of_block checked.now.diagram (attributes_of checked.now.diagram) plan
        (timing_of latencies.now depths.now) place }
{
    if latencies.fed.as_slice()[place as usize] {
        bases.at(
            u64::from(samples(checked.period(place))),
            depths[place as usize],
        )
    } else {
        0
    }
}

/// The clock of its period at which each block's output is ready.
pub fn ready_of(
    alloc: Global,
    checked: &Checked,
    latencies: &Latencies,
    depths: &[u64],
    bases: &Bases,
) -> Result<Longs, OutOfMemory>
    requires fed { length latencies.now.fed ≡ length checked.now.diagram.blocks }
    requires depths { length depths.now ≡ length checked.now.diagram.blocks }
    ensures { IfOk result (λ ready. (plan : Resolved)
        → AreBases checked.now.diagram plan (timing_of latencies.now depths.now) bases.now
        → AreReady checked.now.diagram plan (timing_of latencies.now depths.now) ready) }
{
    checked.keeps_rules();
    let mut ready = Longs::new(alloc);
    for place in 0..depths.len() {
        ready.push(ready_at(checked, latencies, depths, bases, place as u32))?;
    }
    Ok(ready)
}
