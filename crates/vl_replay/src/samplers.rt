ghost use Rattle.std.specs.Prelude.{◌≡◌, ◌≤◌, ◌<◌, ◌+◌, ◌*◌, ◌%◌, ◌^◌, IfOk, length, map, slice_set};
ghost use Rattle.vl_ast.specs.Driven.{output_ports};
ghost use Rattle.vl_replay.specs.Sampled.{hit_at};
ghost use Rattle.vl_replay.specs.inner.Samplers.{ArePut, HasRing, cell_of, number_due, numbers_in, sampler_of};

use fx_io::OutOfMemory;
use std::alloc::Global;
use vl_ast::{Module, lateness_of, step_of};
use vl_check::{is_number_output, is_stallable};
use vl_eval::Machine;

/// When an output is sampled: at a clock of `phase` in its sample, so many samples late.
#[derive(Clone, Copy)]
pub struct Sampler {
    pub period: u32,
    pub delay: u64,
    pub phase: u64,
}

/// The hit of a period at a sample, or the last before it.
#[inline(always)]
pub fn hit_at(period: u32, sample: u64) -> u64
    requires { 0 < period }
    ensures { result ≡ hit_at period sample }
{
    if period == 1 {
        sample
    } else {
        sample - sample % u64::from(period)
    }
}

/// When the output ports of a module that carry numbers are sampled, in order, at so many clocks per sample.
pub fn samplers_of(alloc: Global, source: &Module, cycles: u64) -> Result<Vec<Sampler>, OutOfMemory>
    requires { 0 < cycles }
    ensures { IfOk result (λ samplers. samplers.items
        ≡ map (sampler_of cycles) (output_ports source.now)) }
{
    let mut samplers = Vec::new(alloc);
    let stalls = is_stallable(source);
    for port in source.ports.as_slice() {
        if is_number_output(port, stalls) {
            let latency = lateness_of(port);
            samplers.push(Sampler {
                period: step_of(port),
                delay: latency / cycles,
                phase: latency % cycles,
            })?;
        }
    }
    Ok(samplers)
}

/// Where the cells of a sample begin in a ring of so many rows.
#[inline(always)]
pub fn start_of(window: u64, outputs: usize, sample: u64) -> usize
    requires some { 0 < window }
    requires room { window * outputs < 2 ^ 64 }
    ensures start { result ≡ sample % window * outputs }
    ensures within { result + outputs ≤ window * outputs }
{
    if window == 1 {
        0
    } else {
        (sample % window) as usize * outputs
    }
}

/// The number of an output at a sample: what it shows at a hit, and between hits the number of the
/// sample before.
fn number_for(
    machine: &Machine,
    samplers: &[Sampler],
    window: u64,
    place: usize,
    sample: u64,
    cells: &[i128],
) -> i128
    requires ring { HasRing machine.now samplers.now window cells.now }
    requires within { place < length samplers.now }
    ensures { result
        ≡ number_due (numbers_in machine.now) samplers.now window place sample cells.now }
{
    let hit = hit_at(samplers[place].period, sample);
    if hit == sample {
        return machine.port(place);
    }
    cells[start_of(window, samplers.len(), sample - 1) + place]
}

/// Puts the number of an output at a sample into its cell.
fn put_number(
    machine: &Machine,
    samplers: &[Sampler],
    window: u64,
    place: usize,
    sample: u64,
    cells: &mut [i128],
)
    requires ring { HasRing machine.now samplers.now window cells.old }
    requires within { place < length samplers.now }
    ensures { cells.new ≡ slice_set cells.old (cell_of window (length samplers.now) place sample)
        (number_due (numbers_in machine.now) samplers.now window place sample cells.old) }
{
    let number = number_for(machine, samplers, window, place, sample, cells);
    cells[start_of(window, samplers.len(), sample) + place] = number;
}

/// Puts the numbers that are due at a clock of this phase of a sample into their cells, of which
/// there are so many rows: the row of a sample is that of its remainder.
pub fn put_numbers(
    machine: &Machine,
    samplers: &[Sampler],
    samples: u64,
    window: u64,
    sample: u64,
    phase: u64,
    cells: &mut [i128],
)
    requires { HasRing machine.now samplers.now window cells.old }
    ensures { ArePut (numbers_in machine.now) samplers.now samples window sample phase
        (length samplers.now) cells.old cells.new }
{
    for place in 0..samplers.len() {
        let sampler = samplers[place];
        if sampler.phase != phase || sample < sampler.delay {
            continue;
        }
        let due = sample - sampler.delay;
        if samples <= due {
            continue;
        }
        put_number(machine, samplers, window, place, due, cells);
    }
}
