ghost use Rattle.std.specs.Prelude.{◌≡◌, ◌≤◌, ◌<◌, ◌+◌, ◌-◌, ◌*◌, ℕ, IfOk, Some, slice_get};
ghost use Rattle.fx_tables.specs.Stimulus.{most_cells};
ghost use Rattle.vl_ast.specs.Attributes.{most_latency};
ghost use Rattle.vl_eval.specs.Given.{driven_ports, given};
ghost use Rattle.vl_eval.specs.Machine.{AreFit, HasRoom, IsReady, row_of, source_of};
ghost use Rattle.vl_replay.specs.declared.drivers.Driver.{Driver};
ghost use Rattle.vl_replay.specs.declared.samplers.Sampler.{Sampler};
ghost use Rattle.vl_replay.specs.inner.Play.{CanPlay, IsPlayed};
ghost use Rattle.vl_replay.specs.inner.Rest.{IsPast, IsQuiet, Leads};

use crate::drivers::{Driver, put_bits};
use crate::playing::{Score, play};
use crate::samplers::Sampler;
use fx_io::OutOfMemory;
use std::alloc::Global;
use vl_eval::{Machine, Snapshot};

/// For so many samples no snapshot is made.
const FEW: u64 = 1024;

/// From which sample on the driver shows no number of so many samples.
fn past(driver: Driver, samples: u64) -> u64
    requires few { samples ≤ most_cells }
    ensures past { IsPast samples result driver }
    ensures near { result ≤ 5000000000 }
{
    match driver {
        Driver::Reset | Driver::Enable => 0,
        Driver::Column { period, .. } => samples + u64::from(period),
    }
}

/// From which sample on no driver shows a number of so many samples.
fn driven_until(drivers: &[Driver], samples: u64) -> u64
    requires few { samples ≤ most_cells }
    ensures past { (k : ℕ) (driver : Driver) → slice_get drivers.now k ≡ Some driver
        → IsPast samples result driver }
    ensures near { result ≤ 5000000000 }
{
    let mut from = 0;
    for k in 0..drivers.len() {
        from = past(drivers[k], samples).max(from);
    }
    from
}

/// From which sample on none of so many is sampled of the outputs that come less late.
fn sampled_until(samplers: &[Sampler], samples: u64, delay: u64) -> u64
    requires few { samples ≤ most_cells }
    requires late { delay ≤ most_latency }
    ensures past { (place : ℕ) (sampler : Sampler) → slice_get samplers.now place ≡ Some sampler
        → sampler.delay < delay → samples + sampler.delay ≤ result }
    ensures near { result ≤ 5000000000 }
{
    let mut from = 0;
    for sampler in samplers {
        if sampler.delay < delay {
            from = from.max(samples + sampler.delay);
        }
    }
    from
}

/// From which sample on, until the latest output comes, inputs stay and no output is due.
fn quiet_from(score: &Score, delay: u64) -> u64
    requires few { score.now.stimulus.lines ≤ most_cells }
    requires late { delay ≤ most_latency }
    ensures quiet { IsQuiet score.now result delay }
    ensures near { result ≤ 5000000000 }
{
    let samples = score.stimulus.count();
    let driven = driven_until(score.drivers.as_slice(), samples);
    let sampled = sampled_until(score.samplers.as_slice(), samples, delay);
    driven.max(sampled)
}

/// Passes so many clocks with the same inputs, but no further than where the machine is back in an
/// earlier row: then it tells how many are left, without whole rounds (R. P. Brent, "An improved
/// Monte Carlo factorization algorithm", 1980). It takes no memory.
fn come_back(machine: &mut Machine, clocks: u64, bits: &[u128], kept: &mut Snapshot) -> u64
    requires ready { IsReady machine.old }
    requires fit { AreFit (driven_ports (source_of machine.old)) bits.now }
    requires room { HasRoom machine.old kept.old }
    ensures left { result ≤ clocks }
    ensures few { result ≤ clocks - result }
    ensures leads { Leads (source_of machine.old)
        (given (driven_ports (source_of machine.old)) bits.now) (row_of machine.old)
        (clocks - result) (row_of machine.new) }
    ensures ready { IsReady machine.new }
    ensures source { source_of machine.new ≡ source_of machine.old }
{
    machine.keep(kept);
    let mut since: u64 = 0;
    let mut most: u64 = 1;
    for clock in 0..clocks {
        machine.edge(bits);
        since += 1;
        if machine.is_at(kept) {
            return (clocks - clock - 1) % since;
        }
        if since == most {
            machine.keep(kept);
            since = 0;
            most = most.saturating_mul(2);
        }
    }
    0
}

/// Leaves the machine in the row after so many clocks with the same inputs. It takes no memory.
fn rest(machine: &mut Machine, clocks: u64, bits: &[u128], kept: &mut Snapshot)
    requires ready { IsReady machine.old }
    requires fit { AreFit (driven_ports (source_of machine.old)) bits.now }
    requires room { HasRoom machine.old kept.old }
    ensures leads { Leads (source_of machine.old)
        (given (driven_ports (source_of machine.old)) bits.now) (row_of machine.old) clocks
        (row_of machine.new) }
    ensures ready { IsReady machine.new }
    ensures source { source_of machine.new ≡ source_of machine.old }
{
    let left = come_back(machine, clocks, bits, kept);
    for _clock in 0..left {
        machine.edge(bits);
    }
}

/// Passes the row with `reset` and the clocks of so many samples, as `play` does. Where the machine
/// comes back to a row while inputs stay and no output is due, whole rounds are left out.
///
/// # Errors
/// Want of memory.
pub fn play_ahead(
    alloc: Global,
    machine: &mut Machine,
    score: &Score,
    span: u64,
    bits: &mut [u128],
    cells: &mut [i128],
) -> Result<(), OutOfMemory>
    requires begins { CanPlay machine.old score.now score.now.window bits.old cells.old }
    requires few { score.now.stimulus.lines ≤ most_cells }
    requires late { span ≤ most_latency }
    ensures played { IfOk result (λ done.
        IsPlayed score.now score.now.window (span * score.now.cycles) machine.new cells.new) }
    ensures source { source_of machine.new ≡ source_of machine.old }
{
    let quiet = quiet_from(score, span);
    if span <= quiet + FEW {
        play(machine, score, span, bits, cells);
        return Ok(());
    }
    play(machine, score, quiet, bits, cells);
    let mut kept = machine.snapshot(alloc)?;
    put_bits(score.drivers.as_slice(), &score.stimulus, quiet, bits);
    rest(machine, (span - quiet) * score.cycles, bits, &mut kept);
    Ok(())
}
