//! How many clocks a sample of the core takes, how late its outputs are, and the counters for both.
ghost use Rattle.std.specs.Prelude.{◌≡◌, ◌<◌, ◌≤◌};
ghost use Rattle.st_wrap.specs.Pace.{latest_in, samples_late};
ghost use Rattle.st_wrap.specs.inner.Control.{CountFor, HasRoom};

use vl_ast::{Module, Port, clocks_of, lateness_of};
use vl_check::{is_number_output, is_stallable};

/// A counter's greatest number, and how many bits it has.
#[derive(Clone, Copy)]
pub struct Counter {
    pub most: u64,
    pub width: u32,
}

/// The counters of a wrapper.
#[derive(Clone, Copy)]
pub struct Counters {
    /// Of the clocks of a sample.
    pub phase: Counter,
    /// Of the samples to wait for.
    pub wait: Counter,
}

/// How many whole samples an output comes late.
pub fn samples_late(cycles: u64, port: &Port) -> u64
    requires { 1 ≤ cycles }
    ensures { result ≡ samples_late cycles port.now }
{
    lateness_of(port) / cycles
}

/// How many whole samples the latest output comes late.
pub fn latest_in(core: &Module) -> u64
    ensures { result ≡ latest_in core.now }
{
    let cycles = clocks_of(core);
    let stalls = is_stallable(core);
    let mut latest = 0;
    for port in core.ports.as_slice() {
        if is_number_output(port, stalls) {
            latest = latest.max(samples_late(cycles, port));
        }
    }
    latest
}

/// A counter that reaches this number.
fn counter_to(most: u64) -> Counter
    ensures most { result.most ≡ most }
    ensures room { HasRoom result }
{
    let mut width = 1;
    while width < 64 && most >> width != 0 {
        width += 1;
    }
    Counter { most, width }
}

/// The counters of the wrapper round a core.
pub fn counters_for(core: &Module) -> Counters
    ensures { CountFor core.now result }
{
    Counters {
        phase: counter_to(clocks_of(core) - 1),
        wait: counter_to(latest_in(core)),
    }
}
