//! The numbers that a module and its ports carry as attributes.
ghost use Rattle.std.specs.Prelude.{◌≡◌, ◌≤◌, ◌<◌};
ghost use Rattle.vl_ast.specs.Attributes.{attribute, cycles_of, latency_of, period_of};
ghost use Rattle.vl_ast.specs.Attributes.{clocks_of, lateness_of, step_of};

use crate::modules::{Attr, Module, Port};

/// The most clocks of a base sample (own).
const MOST_CYCLES: u64 = 1024;

/// The greatest period of a port, in base samples (own).
const MOST_PERIOD: u64 = 4096;

/// The greatest latency of an output, in clocks (own).
const MOST_LATENCY: u64 = 16_777_216;

/// The number of the first attribute of a name. `None` where there is none or it is out of the range.
fn attribute(attrs: &[Attr], name: &[u8], low: u64, high: u64) -> Option<u64>
    ensures { result ≡ attribute attrs.now name.now low high }
{
    for attr in attrs {
        if attr.name.bytes() == name {
            return if low <= attr.value && attr.value <= high {
                Some(attr.value)
            } else {
                None
            };
        }
    }
    None
}

/// How many clocks a base sample of the module takes (own).
pub fn cycles_of(source: &Module) -> Option<u64>
    ensures { result ≡ cycles_of source.now }
{
    attribute(source.attrs.as_slice(), b"fx_cycles", 1, MOST_CYCLES)
}

/// The period of a port in base samples (own).
pub fn period_of(port: &Port) -> Option<u64>
    ensures { result ≡ period_of port.now }
{
    attribute(port.attrs.as_slice(), b"fx_period", 1, MOST_PERIOD)
}

/// How many clocks an output comes after its sample (own).
pub fn latency_of(port: &Port) -> Option<u64>
    ensures { result ≡ latency_of port.now }
{
    attribute(port.attrs.as_slice(), b"fx_latency", 0, MOST_LATENCY)
}

/// How many clocks a base sample of the module takes, 1 where it doesn't say (own).
pub fn clocks_of(source: &Module) -> u64
    ensures is { result ≡ clocks_of source.now }
    ensures some { 1 ≤ result }
{
    match cycles_of(source) {
        None => 1,
        Some(cycles) => cycles,
    }
}

/// The base samples from one number of a port to the next, 1 where it doesn't say (own).
pub fn step_of(port: &Port) -> u32
    ensures step { result ≡ step_of port.now }
    ensures some { 0 < result }
{
    match period_of(port) {
        None => 1,
        Some(period) => period as u32,
    }
}

/// How many clocks an output comes after its sample, 0 where it doesn't say (own).
pub fn lateness_of(port: &Port) -> u64
    ensures { result ≡ lateness_of port.now }
{
    match latency_of(port) {
        None => 0,
        Some(latency) => latency,
    }
}
