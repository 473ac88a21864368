ghost use Rattle.std.specs.Prelude.{◌≡◌, ℕ, IfErr, IfOk, length};
ghost use Rattle.hw_latency.specs.Latency.{AreLatencies};
ghost use Rattle.dg_model.specs.PlanOf.{IsPlanOf};
ghost use Rattle.hw_sched.specs.Sizing.{ForTimes, IsKeptSize, IsSizeFault};
ghost use Rattle.hw_sched.specs.inner.Counts.{are_within, capped};

use crate::block_registers::blocks_in_all;
use crate::edge_lines::lines_in_all;
use crate::output_latency::latest_output;
use dg_model::{Checked, Resolved, root_elements_are_listed};
use fx_io::OutOfMemory;
use hw_latency::Latencies;

/// How large a module is (own).
#[derive(Clone, Copy)]
pub struct Sizing {
    /// What it is to keep, each element of a line, a block or a shared operation by itself.
    pub storage: u64,
    /// The greatest latency that is declared of its root outputs, in clocks; 0 without outputs.
    pub latency: u64,
}

/// Why there is no module of such a size (own).
#[derive(Drop)]
pub enum SizeFault {
    /// It has too many registers, or is too late.
    Size { storage: u64, latency: u64 },
    /// Memory is wanting, or a number is 2^64 or more.
    OutOfMemory,
}

impl From<OutOfMemory> for SizeFault {
    ghost use Rattle.std.specs.Prelude.{◌≡◌};
    ghost use Rattle.hw_sched.specs.declared.sizing.SizeFault.TheVariants.{OutOfMemory};

    ghost from_gives = { λ _ fault. fault ≡ OutOfMemory };

    fn from(_refused: OutOfMemory) -> SizeFault {
        SizeFault::OutOfMemory
    }
}

/// The most storage that the rule of size leaves a module.
const MOST_STORAGE: u64 = 400_000;

/// The greatest latency of a module, in clocks.
const MOST_LATENCY: u64 = 16_777_216;

/// A count in 64 bits; one of 2^64 or more is want of memory.
fn word(count: u128) -> Result<u64, OutOfMemory>
    ensures { IfOk result (λ word. (number : ℕ) → count ≡ capped number → word ≡ number) }
{
    if count <= 0xffff_ffff_ffff_ffff {
        Ok(count as u64)
    } else {
        // word: a count, of 64 bits
        Err(OutOfMemory)
    }
}

/// Whether a module of this size has few enough registers and isn't too late.
fn is_within(sizing: Sizing) -> bool
    ensures { result ≡ are_within sizing }
{
    sizing.storage <= MOST_STORAGE && sizing.latency <= MOST_LATENCY
}

/// How large the module of a checked diagram is by a plan, from its latencies and the clock of its
/// period at which the output of each block is ready, or the fault of the rule of size: a module has
/// at most 400,000 words of storage and declares no latency above 16,777,216 clocks. It takes no
/// memory; its time is linear in the edges and blocks, but for a search of the line into each block.
/// A number of 2^64 or more is want of memory.
pub fn check_size(
    checked: &Checked,
    plan: &Resolved,
    latencies: &Latencies,
    ready: &[u64],
) -> Result<Sizing, SizeFault>
    requires plan { IsPlanOf checked.now.diagram plan.now }
    requires latencies { AreLatencies checked.now.diagram plan.now latencies.now }
    requires ready { length ready.now ≡ length checked.now.diagram.blocks }
    ensures kept { IfOk result (λ sizing.
        ForTimes checked.now.diagram plan.now latencies.now ready.now
        (IsKeptSize checked.now.diagram plan.now sizing)) }
    ensures broken { IfErr result (λ fault.
        ForTimes checked.now.diagram plan.now latencies.now ready.now
        (IsSizeFault checked.now.diagram plan.now fault)) }
{
    checked.keeps_rules();
    root_elements_are_listed();
    let lines = lines_in_all(checked, plan, latencies);
    let blocks = blocks_in_all(checked, plan);
    let storage = word(lines.saturating_add(blocks))?;
    let latency = word(latest_output(checked, plan, latencies, ready))?;
    let sizing = Sizing { storage, latency };
    if is_within(sizing) {
        Ok(sizing)
    } else {
        Err(SizeFault::Size { storage, latency })
    }
}
