//! Registers one behind another, in which elements are kept.
ghost use Rattle.std.specs.Prelude.{◌≡◌, ◌∷◌, ◌++◌, [], IfOk};
ghost use Rattle.hw_build.specs.inner.Series.{CanPutSeries, PutsSeries, enables_by, register_of};

use crate::parts::Word;
use fx_io::OutOfMemory;
use hw_net::{Frame, Net, NetKind, Netlist};

/// Registers one behind another: their word, the number of the first and that of the last.
#[derive(Clone, Copy)]
pub struct Series {
    pub word: Word,
    pub first: u32,
    pub last: u32,
}

/// What enables registers, and whether they have their first number where it doesn't.
#[derive(Clone, Copy)]
pub struct Enabled {
    pub enable: u32,
    pub reset: bool,
}

/// A register that takes a net in this slot of its frames, or at their ends where it is enabled.
fn register(frame: Frame, slot: u32, enabled: Option<Enabled>, first: i128, from: u32) -> NetKind
    ensures { result ≡ register_of enabled frame slot first from }
{
    match enabled {
        None => {
            NetKind::Reg {
                frame,
                slot,
                first,
                from,
            }
        }
        Some(by) => {
            NetKind::EnReg {
                frame,
                enable: by.enable,
                reset: by.reset,
                first,
                from,
            }
        }
    }
}

/// Puts in registers from a net on, which take in this slot of their frames, or at the ends of these
/// where they are enabled.
pub fn put_series(
    net: &mut Netlist,
    word: Word,
    frame: Frame,
    slot: u32,
    enabled: Option<Enabled>,
    count: u32,
    first: i128,
    from: u32,
) -> Result<Series, OutOfMemory>
    requires { CanPutSeries net.old word frame enabled count first from }
    ensures { IfOk result (PutsSeries (register_of enabled frame slot first) net.old net.new
        (enables_by enabled ++ from ∷ []) frame word from count) }
{
    let counter = net.counter(frame)?;
    let _ = counter;
    let Ok(begin) = u32::try_from(net.nets().len()) else {
        // word: the number of a net, of 32 bits
        return Err(OutOfMemory);
    };
    let mut last = from;
    for _step in 0..count {
        let kind = register(frame, slot, enabled, first, last);
        last = net.add(Net {
            signed: word.signed,
            width: word.width,
            kind,
        })?;
    }
    Ok(Series {
        word,
        first: begin,
        last,
    })
}
