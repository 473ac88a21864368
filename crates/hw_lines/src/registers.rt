//! Registers and bridges behind a net, with its word, and the Counters of their frames.
ghost use Rattle.std.specs.Prelude.{◌<◌, IfOk, ⊤};
ghost use Rattle.hw_lines.specs.Register.{Adds, CanHold, IsHeld, IsThere};
ghost use Rattle.hw_lines.specs.inner.Parts.{IsBridged};

use fx_io::OutOfMemory;
use hw_net::{Frame, Net, NetKind, Netlist};

/// The number of a net that was put in, or want of memory.
pub type Put = Result<u32, OutOfMemory>;

/// Puts in a register that takes a net at a slot of a frame, and has its first number before.
///
/// # Errors
/// Want of memory, also where the number of a net has no room in 32 bits.
pub fn register_at(net: &mut Netlist, from: u32, frame: Frame, slot: u32, first: i128) -> Put
    requires cycles { 0 < net.old.cycles }
    requires period { 0 < frame.period }
    requires from { CanHold net.old from first }
    ensures { IfOk result (λ number. Adds net.old net.new from frame ⊥
        (IsHeld net.old net.new from frame slot first number)) }
{
    let Net { signed, width, .. } = &net.nets()[from as usize];
    let (signed, width) = (*signed, *width);
    let _ = net.counter(frame)?;
    let kind = NetKind::Reg {
        frame,
        slot,
        first,
        from,
    };
    net.add(Net {
        signed,
        width,
        kind,
    })
}

/// Puts in a bridge that passes a net on in the first base samples of a frame.
pub fn bridge_at(net: &mut Netlist, from: u32, frame: Frame, live: u32) -> Put
    requires cycles { 0 < net.old.cycles }
    requires period { 0 < frame.period }
    requires live { 0 < live }
    requires from { IsThere net.old from }
    ensures { IfOk result (λ number. Adds net.old net.new from frame ⊤
        (IsBridged net.old net.new from frame live number)) }
{
    let Net { signed, width, .. } = &net.nets()[from as usize];
    let (signed, width) = (*signed, *width);
    let _ = net.counter(frame)?;
    let kind = NetKind::Bridge { frame, live, from };
    net.add(Net {
        signed,
        width,
        kind,
    })
}
