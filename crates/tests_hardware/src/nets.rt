//! Nets by the words of a row.
//!
//! | KIND | net |
//! |---|---|
//! | `input NUMBER`, `const V`, `up PLACES NET`, `down PLACES NET`, `slice HIGH LOW NET` | an operation with numbers |
//! | `resize NET`, `add NET NET`, .. | one without; the names are those of `NetOp` |
//! | `reg FRAME SLOT INITIAL NET` | a register |
//! | `keep FRAME ENABLE INITIAL NET`, `reset FRAME ENABLE INITIAL NET` | an enabled register, which keeps its number or takes its first one where it isn't enabled |
//! | `bridge FRAME LIVE NET`, `unit NET NET`, `counter FRAME` | a bridge, a shared multiplier, a Counter |

use anyhow::{Error, Result};
use fx_io::{Sizes, Text};
use hw_net::{Frame, Net, NetKind, NetLabel, NetOp, NetPort, Netlist};
use hw_run::is_resize;
use std::alloc::Global;
use tests_rows::{Row, table_value};

/// The net that the words tell.
fn net_of(alloc: Global, row: &mut Row<'_>) -> Result<Net> {
    Ok(Net {
        signed: row.one_of(&[("s", true), ("u", false)])?,
        width: row.byte()?,
        kind: kind_of(alloc, row)?,
    })
}

pub fn frame_of(row: &mut Row<'_>) -> Result<Frame> {
    let period = row.number()?;
    let latency = row.long()?;
    Ok(Frame { period, latency })
}

fn kind_of(alloc: Global, row: &mut Row<'_>) -> Result<NetKind> {
    let name = row.next()?;
    match name {
        "reg" => register(row),
        "keep" => enabled_register(row, false),
        "reset" => enabled_register(row, true),
        "acc" => accumulator(row),
        "bridge" => bridge(row),
        "counter" => Ok(NetKind::Counter {
            frame: frame_of(row)?,
        }),
        "unit" => unit(row),
        _ => operation(alloc, name, row),
    }
}

fn register(row: &mut Row<'_>) -> Result<NetKind> {
    Ok(NetKind::Reg {
        frame: frame_of(row)?,
        slot: row.number()?,
        first: row.integer()?,
        from: row.number()?,
    })
}

fn enabled_register(row: &mut Row<'_>, reset: bool) -> Result<NetKind> {
    Ok(NetKind::EnReg {
        frame: frame_of(row)?,
        enable: row.number()?,
        reset,
        first: row.integer()?,
        from: row.number()?,
    })
}

fn accumulator(row: &mut Row<'_>) -> Result<NetKind> {
    Ok(NetKind::Acc {
        frame: frame_of(row)?,
        enable: row.number()?,
        from: row.number()?,
    })
}

fn bridge(row: &mut Row<'_>) -> Result<NetKind> {
    let frame = frame_of(row)?;
    let live = row.number()?;
    let from = row.number()?;
    Ok(NetKind::Bridge { frame, live, from })
}

fn unit(row: &mut Row<'_>) -> Result<NetKind> {
    let left = row.number()?;
    let right = row.number()?;
    Ok(NetKind::Unit { left, right })
}

/// An operation on the nets of the words that are left.
fn operation(alloc: Global, name: &str, row: &mut Row<'_>) -> Result<NetKind> {
    let op = op_of(name, row)?;
    let mut args = Sizes::new(alloc);
    for _ in 0..row.words_left() {
        args.push(row.number()?)?;
    }
    Ok(NetKind::Comb { op, args })
}

fn op_of(name: &str, row: &mut Row<'_>) -> Result<NetOp> {
    match name {
        "input" => Ok(NetOp::Input(row.number()?)),
        "const" => Ok(NetOp::Const(row.integer()?)),
        "up" => Ok(NetOp::ShiftUp(row.byte()?)),
        "down" => Ok(NetOp::ShiftDown(row.byte()?)),
        "slice" => {
            let high = row.byte()?;
            let low = row.byte()?;
            Ok(NetOp::Slice { high, low })
        }
        _ => table_value(
            name,
            &[
                ("resize", NetOp::Resize),
                ("add", NetOp::Add),
                ("subtract", NetOp::Subtract),
                ("negate", NetOp::Negate),
                ("multiply", NetOp::Multiply),
                ("and", NetOp::And),
                ("or", NetOp::Or),
                ("xor", NetOp::Xor),
                ("not", NetOp::Not),
                ("less", NetOp::Less),
                ("equal", NetOp::Equal),
                ("choose", NetOp::Choose),
            ],
        ),
    }
}

pub fn put_net(alloc: Global, netlist: &mut Netlist, row: &mut Row<'_>) -> Result<()> {
    let _ = netlist.add(net_of(alloc, row)?)?;
    Ok(())
}

/// A port that shows a net.
fn port_of(alloc: Global, net: u32, frame: Frame) -> Result<NetPort> {
    let name = Text::copy(alloc, b"in")?;
    let Frame { period, latency } = frame;
    Ok(NetPort {
        name,
        net,
        period,
        latency,
    })
}

pub fn put_port(alloc: Global, netlist: &mut Netlist, row: &mut Row<'_>) -> Result<()> {
    let net = row.number()?;
    let frame = Frame {
        period: 1,
        latency: 0,
    };
    netlist.add_input(port_of(alloc, net, frame)?)?;
    Ok(())
}

pub fn put_output(alloc: Global, netlist: &mut Netlist, row: &mut Row<'_>) -> Result<()> {
    let net = row.number()?;
    let frame = frame_of(row)?;
    netlist.add_output(port_of(alloc, net, frame)?)?;
    Ok(())
}

pub fn put_label(alloc: Global, netlist: &mut Netlist, row: &mut Row<'_>) -> Result<()> {
    let net = row.number()?;
    let name = Text::copy(alloc, row.next()?.as_bytes())?;
    netlist.add_label(NetLabel { net, name })?;
    Ok(())
}

/// Gives a resize its argument.
pub fn connect(alloc: Global, netlist: &mut Netlist, row: &mut Row<'_>) -> Result<()> {
    let number = row.number()?;
    let argument = row.number()?;
    if !is_resize(netlist, number) {
        return Err(Error::msg("no resize"));
    }
    netlist.connect(alloc, number, argument)?;
    Ok(())
}

/// Puts in so many nets: sums of the last net and net 0, and registers that take them, in turn.
pub fn put_sums(alloc: Global, netlist: &mut Netlist, row: &mut Row<'_>) -> Result<()> {
    let mut last = 0;
    for place in 0..row.number()? {
        let kind = if place % 2 == 0 {
            sum_of(alloc, last)?
        } else {
            register_of(last)
        };
        last = netlist.add(Net {
            signed: true,
            width: 16,
            kind,
        })?;
    }
    Ok(())
}

fn sum_of(alloc: Global, net: u32) -> Result<NetKind> {
    let mut args = Sizes::new(alloc);
    args.push(net)?;
    args.push(0)?;
    let op = NetOp::Add;
    Ok(NetKind::Comb { op, args })
}

fn register_of(from: u32) -> NetKind {
    NetKind::Reg {
        frame: Frame {
            period: 2,
            latency: 1,
        },
        slot: 0,
        first: 0,
        from,
    }
}
