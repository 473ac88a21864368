//! Where a clock stands in the frames of a net.
ghost use Rattle.std.specs.Prelude.{◌≡◌, ◌*◌, ◌+◌, ◌-◌, ◌^◌, ◌<◌, ◌≤◌, ◌↔◌, IsTrue, pos};
ghost use Rattle.std.specs.Option.{SomeIff};
ghost use Rattle.hw_net.specs.Registers.{Takes, IsLive};
ghost use Rattle.hw_net.specs.NetRows.{span_of};

use hw_net::Frame;

/// How many clocks a value stands in its frame.
pub fn length_of(frame: Frame, cycles: u32) -> u64
    ensures { result ≡ frame.period * cycles }
{
    u64::from(frame.period) * u64::from(cycles)
}

/// The clock at which the first value begins.
pub fn start_of(frame: Frame, cycles: u32) -> u128
    ensures { result ≡ frame.latency * cycles }
{
    u128::from(frame.latency) * u128::from(cycles)
}

/// How many clocks end by the last one of the first value.
fn first_end(frame: Frame, cycles: u32) -> u128
    requires period { 0 < frame.period }
    requires cycles { 0 < cycles }
    ensures is { result ≡ frame.latency * cycles + frame.period * cycles - 1 }
    ensures fits { result < 2 ^ 127 }
{
    start_of(frame, cycles) + u128::from(length_of(frame, cycles)) - 1
}

/// What a counter shows at clock 0.
pub fn first_count(frame: Frame, cycles: u32) -> i128
    requires period { 0 < frame.period }
    requires cycles { 0 < cycles }
    ensures { result ≡ pos ((span_of cycles frame).start + (span_of cycles frame).length - 1) }
{
    first_end(frame, cycles) as i128
}

/// The clocks since the first value began, if it has.
fn clocks_since_start(frame: Frame, cycles: u32, clock: u64) -> Option<u64>
    ensures { SomeIff result (frame.latency * cycles ≤ clock) (clock - frame.latency * cycles) }
{
    let start = start_of(frame, cycles);
    if u128::from(clock) < start {
        return None;
    }
    Some(clock - start as u64)
}

/// Whether the edge that ends this clock stands at this slot of a frame.
pub fn takes(frame: Frame, cycles: u32, slot: u64, clock: u64) -> bool
    requires period { 0 < frame.period }
    requires cycles { 0 < cycles }
    ensures { IsTrue result ↔ Takes (span_of cycles frame) slot clock }
{
    match clocks_since_start(frame, cycles, clock) {
        Some(passed) => passed % length_of(frame, cycles) == slot,
        None => false,
    }
}

/// Whether a bridge passes its source on at this clock.
pub fn is_live(frame: Frame, cycles: u32, live: u32, clock: u64) -> bool
    requires period { 0 < frame.period }
    requires cycles { 0 < cycles }
    ensures { IsTrue result ↔ IsLive (span_of cycles frame) (live * cycles) clock }
{
    let lives = u64::from(live) * u64::from(cycles);
    match clocks_since_start(frame, cycles, clock) {
        Some(passed) => passed % length_of(frame, cycles) < lives,
        None => true,
    }
}
