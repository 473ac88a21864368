ghost use Rattle.std.specs.Prelude.{◌≡◌, ◌≤◌, ◌<◌, ◌+◌, ◌*◌, IfOk, length};
ghost use Rattle.vl_ast.specs.Attributes.{most_latency};
ghost use Rattle.vl_ast.specs.Conditions.{BreaksNone};
ghost use Rattle.vl_ast.specs.Driven.{stimulus_ports};
ghost use Rattle.vl_eval.specs.Machine.{source_of};
ghost use Rattle.vl_replay.specs.Sampled.{numbers_of};
ghost use Rattle.vl_replay.specs.inner.Drivers.{AreBits, driver_bits};
ghost use Rattle.vl_replay.specs.inner.Play.{AreNear, CanPlay, IsDelay, IsPlayed, IsScoreOf, IsWindow};

use crate::drivers::{Driver, drivers_of, put_bits, put_reset};
use crate::samplers::{Sampler, put_numbers, samplers_of};
use fx_io::OutOfMemory;
use fx_tables::Rows;
use std::alloc::Global;
use vl_ast::{Module, clocks_of};
use vl_eval::Machine;

/// What stays the same while a module is driven.
#[derive(Drop)]
pub struct Score {
    pub stimulus: Rows,
    /// By the input ports but `clk`.
    pub drivers: Vec<Driver>,
    /// By the output ports that carry numbers.
    pub samplers: Vec<Sampler>,
    /// The clocks of a sample.
    pub cycles: u64,
    /// By how many samples the last number of a sample comes late.
    pub delay: u64,
    /// The rows of the ring in which numbers wait for the last of their sample.
    pub window: u64,
}

/// No output is sampled more samples late: 0 where there are no samples.
fn delay_of(samplers: &[Sampler], samples: u64) -> u64
    requires late { AreNear samplers.now }
    ensures { IsDelay samplers.now samples result }
{
    if samples == 0 {
        return 0;
    }
    let mut delay = 0;
    for sampler in samplers {
        delay = sampler.delay.max(delay);
    }
    delay
}

/// For how many samples numbers are held while the latest output is sampled so late: from the
/// earliest to the latest, and for no more than there are.
fn window_of(samplers: &[Sampler], samples: u64, delay: u64) -> u64
    requires late { delay ≤ most_latency }
    ensures { IsWindow samplers.now samples delay result }
{
    let mut earliest = delay;
    for sampler in samplers {
        earliest = sampler.delay.min(earliest);
    }
    (delay - earliest + 1).min(samples).max(1)
}

/// The score of a module and its stimulus.
pub fn score_of(alloc: Global, source: &Module, stimulus: Rows) -> Result<Score, OutOfMemory>
    requires sound { BreaksNone source.now }
    requires columns { stimulus.columns ≡ length (stimulus_ports source.now) }
    ensures score { IfOk result (IsScoreOf source.now) }
    ensures stimulus { IfOk result (λ score. score.stimulus ≡ stimulus) }
{
    let cycles = clocks_of(source);
    let drivers = drivers_of(alloc, source)?;
    let samplers = samplers_of(alloc, source, cycles)?;
    let delay = delay_of(samplers.as_slice(), stimulus.count());
    let window = window_of(samplers.as_slice(), stimulus.count(), delay);
    Ok(Score {
        stimulus,
        drivers,
        samplers,
        cycles,
        delay,
        window,
    })
}

/// Passes one clock of this phase of a sample, and samples what is due.
fn step(
    machine: &mut Machine,
    score: &Score,
    bits: &[u128],
    sample: u64,
    phase: u64,
    cells: &mut [i128],
)
    requires played { IsPlayed score.now score.now.window
        (sample * score.now.cycles + phase) machine.old cells.old }
    requires phase { phase < score.now.cycles }
    requires bits { AreBits (driver_bits
        (numbers_of score.now.stimulus) score.now.stimulus.lines sample) score.now.drivers.items
        (length score.now.drivers.items) bits.now }
    ensures played { IsPlayed score.now score.now.window (sample * score.now.cycles + phase
        + 1) machine.new cells.new }
    ensures source { source_of machine.new ≡ source_of machine.old }
{
    machine.edge(bits);
    put_numbers(
        machine,
        score.samplers.as_slice(),
        score.stimulus.count(),
        score.window,
        sample,
        phase,
        cells,
    );
}

/// Passes the clocks of a sample, with a ring of so many rows.
pub fn play_sample(
    machine: &mut Machine,
    score: &Score,
    sample: u64,
    bits: &mut [u128],
    cells: &mut [i128],
)
    requires played { IsPlayed score.now score.now.window (sample * score.now.cycles) machine.old
        cells.old }
    requires wide { length bits.old ≡ length score.now.drivers.items }
    ensures played { IsPlayed score.now score.now.window (sample * score.now.cycles
        + score.now.cycles) machine.new cells.new }
    ensures wide { length bits.new ≡ length score.now.drivers.items }
    ensures source { source_of machine.new ≡ source_of machine.old }
{
    put_bits(score.drivers.as_slice(), &score.stimulus, sample, bits);
    for phase in 0..score.cycles {
        step(machine, score, bits, sample, phase, cells);
    }
}

/// Passes the row with `reset` and the clocks of so many samples.
pub fn play(machine: &mut Machine, score: &Score, span: u64, bits: &mut [u128], cells: &mut [i128])
    requires { CanPlay machine.old score.now score.now.window bits.old cells.old }
    ensures played { IsPlayed score.now score.now.window (span * score.now.cycles) machine.new
        cells.new }
    ensures source { source_of machine.new ≡ source_of machine.old }
{
    put_reset(score.drivers.as_slice(), bits);
    machine.edge(bits);
    for sample in 0..span {
        play_sample(machine, score, sample, bits, cells);
    }
}
