//! Nets, ports and labels with what they name by other numbers.
ghost use Rattle.std.specs.Prelude.{◌≡◌, ◌<◌, ◌++◌, ◌∷◌, [], IfOk, All, map, length};
ghost use Rattle.hw_net.specs.Netlist.{reads};
ghost use Rattle.hw_refine.specs.Redirects.{redirected};
ghost use Rattle.hw_renumber.specs.Renumbered.{place_in, moved_net, moved_port, moved_label};

use fx_io::{OutOfMemory, Sizes, Text};
use hw_net::{Net, NetKind, NetLabel, NetPort};
use std::alloc::Global;

/// The places of the nets of a list.
fn moved_reads(alloc: Global, list: &[u32], places: &[u32]) -> Result<Sizes, OutOfMemory>
    requires { All (λ read. read < length places.now) list.now }
    ensures { IfOk result (λ made. made ≡ map (place_in places.now) list.now) }
{
    let mut made = Sizes::new(alloc);
    for read in list {
        made.push(places[*read as usize])?;
    }
    Ok(made)
}

/// The same of the places of what it reads.
fn moved_kind(alloc: Global, kind: &NetKind, places: &[u32]) -> Result<NetKind, OutOfMemory>
    requires { All (λ read. read < length places.now) (reads kind.now) }
    ensures { IfOk result (λ made. made ≡ redirected (place_in places.now) kind.now) }
{
    match kind {
        NetKind::Comb { op, args } => {
            let moved = moved_reads(alloc, args.as_slice(), places)?;
            Ok(NetKind::Comb {
                op: *op,
                args: moved,
            })
        }
        NetKind::Reg {
            frame,
            slot,
            first,
            from,
        } => Ok(NetKind::Reg {
            frame: *frame,
            slot: *slot,
            first: *first,
            from: places[*from as usize],
        }),
        NetKind::EnReg {
            frame,
            enable,
            reset,
            first,
            from,
        } => Ok(NetKind::EnReg {
            frame: *frame,
            enable: places[*enable as usize],
            reset: *reset,
            first: *first,
            from: places[*from as usize],
        }),
        NetKind::Acc {
            frame,
            enable,
            from,
        } => Ok(NetKind::Acc {
            frame: *frame,
            enable: places[*enable as usize],
            from: places[*from as usize],
        }),
        NetKind::Bridge { frame, live, from } => Ok(NetKind::Bridge {
            frame: *frame,
            live: *live,
            from: places[*from as usize],
        }),
        NetKind::Unit { left, right } => Ok(NetKind::Unit {
            left: places[*left as usize],
            right: places[*right as usize],
        }),
        NetKind::Counter { frame } => Ok(NetKind::Counter { frame: *frame }),
    }
}

/// The net of the places of what it reads.
pub fn moved_net(alloc: Global, net: &Net, places: &[u32]) -> Result<Net, OutOfMemory>
    requires { All (λ read. read < length places.now) (reads net.now.kind) }
    ensures { IfOk result (λ made. made ≡ moved_net (place_in places.now) net.now) }
{
    let kind = moved_kind(alloc, &net.kind, places)?;
    Ok(Net {
        signed: net.signed,
        width: net.width,
        kind,
    })
}

/// The port of the place of its net.
pub fn moved_port(alloc: Global, port: &NetPort, places: &[u32]) -> Result<NetPort, OutOfMemory>
    requires { port.now.net < length places.now }
    ensures { IfOk result (λ made. made ≡ moved_port (place_in places.now) port.now) }
{
    let name = Text::copy(alloc, port.name.bytes())?;
    Ok(NetPort {
        name,
        net: places[port.net as usize],
        period: port.period,
        latency: port.latency,
    })
}

/// The label of the place of its net.
pub fn moved_label(alloc: Global, label: &NetLabel, places: &[u32]) -> Result<NetLabel, OutOfMemory>
    requires { label.now.net < length places.now }
    ensures { IfOk result (λ made. made ≡ moved_label (place_in places.now) label.now) }
{
    let name = Text::copy(alloc, label.name.bytes())?;
    Ok(NetLabel {
        net: places[label.net as usize],
        name,
    })
}
