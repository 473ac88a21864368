//! The registers of a source, one behind another.
ghost use Rattle.std.specs.Prelude.{◌≡◌, ◌+◌, ◌*◌, ◌<◌, ◌^◌, length, IfOk, OnOk};
ghost use Rattle.hw_net.specs.Frames.{register_count};
ghost use Rattle.hw_lines.specs.Chain.{IsSource, most_frames};
ghost use Rattle.hw_lines.specs.Register.{Grows};
ghost use Rattle.hw_lines.specs.inner.Parts.{AreTaps};

use crate::laws::tap_steps;
use crate::registers::register_at;
use crate::source::{Source, Use};
use fx_io::{OutOfMemory, Sizes};
use hw_net::Netlist;
use std::alloc::Global;

/// The greatest count of whole periods by which a use is behind the source.
pub fn most_frames(period: u32, uses: &[Use]) -> u64
    requires { 0 < period }
    ensures { result ≡ most_frames period uses.now }
{
    let mut most = 0;
    for one in uses {
        most = most.max(one.shift / u64::from(period));
    }
    most
}

/// The nets that show a source 0, 1, .. of its frames later, up to a count: the source itself, and
/// a register for each frame.
pub fn taps_of(
    alloc: Global,
    net: &mut Netlist,
    source: Source,
    count: u64,
) -> Result<Sizes, OutOfMemory>
    requires cycles { 0 < net.old.cycles }
    requires source { IsSource net.old source }
    requires room { source.frame.period * net.old.cycles < 2 ^ 32 }
    ensures size { IfOk result (λ taps. length taps ≡ count + 1) }
    ensures taps { IfOk result (λ taps. AreTaps net.old net.new source taps) }
    ensures grown { OnOk result
        (Grows net.old net.new source.from ⊥ (λ other. other ≡ source.frame)) }
    ensures few { OnOk result (register_count net.new.nets ≡ register_count net.old.nets + count) }
{
    tap_steps();
    let slot = source.frame.period * net.cycles() - 1;
    let mut taps = Sizes::new(alloc);
    let mut last = source.from;
    taps.push(last)?;
    for step in 0..count {
        last = register_at(net, last, source.frame, slot, source.first)?;
        taps.push(last)?;
    }
    Ok(taps)
}
