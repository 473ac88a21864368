//! The end of a line behind a tap: the tap itself, a register or a bridge.
ghost use Rattle.std.specs.Prelude.{◌≡◌, ◌+◌, ◌<◌, ◌^◌, IfOk, OnOk};
ghost use Rattle.hw_lines.specs.Chain.{reader_of, is_whole};
ghost use Rattle.hw_lines.specs.inner.Ends.{CanEnd, IsEnd, Ends};

use crate::laws::{bridge_meets, phase_register_meets, tap_holds, tap_meets};
use crate::registers::{bridge_at, register_at};
use crate::source::{Source, Use};
use fx_io::OutOfMemory;
use hw_net::{Frame, Netlist};

/// The frame in which a use is seen.
pub fn reader_of(source: Source, one: Use) -> Frame
    requires { source.frame.latency + one.shift < 2 ^ 64 }
    ensures { result ≡ reader_of source one }
{
    Frame {
        period: source.frame.period.max(one.period),
        latency: source.frame.latency + one.shift,
    }
}

/// Whether a use is seen in frames of the source's period, by whole periods later.
fn is_whole(source: Source, one: Use) -> bool
    requires { 0 < source.frame.period }
    ensures { result ≡ is_whole source one }
{
    one.shift % u64::from(source.frame.period) == 0 && one.period <= source.frame.period
}

/// The end of a line. Where it is whole periods later it is the tap. Else it is a register behind
/// the tap with a slot of its own, or for a plain line a bridge.
pub fn end_of(net: &mut Netlist, source: Source, taps: &[u32], one: Use) -> Result<u32, OutOfMemory>
    requires { CanEnd net.old source taps.now one }
    ensures end { IfOk result (λ number. IsEnd net.old net.new source taps.now one number) }
    ensures ends { OnOk result (Ends net.old net.new source taps.now one) }
{
    tap_holds();
    tap_meets();
    phase_register_meets();
    bridge_meets();
    let own = u64::from(source.frame.period);
    let tap = taps[(one.shift / own) as usize];
    if is_whole(source, one) {
        return Ok(tap);
    }
    let rest = (one.shift % own) as u32;
    if source.registered {
        let slot = rest * net.cycles() - 1;
        return register_at(net, tap, source.frame, slot, source.first);
    }
    let reader = reader_of(source, one);
    bridge_at(net, tap, reader, source.frame.period - rest)
}
