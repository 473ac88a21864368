//! The nets and the ports of a netlist as operands, each by its name.
ghost use Rattle.std.specs.Prelude.{◌≡◌, ◌<◌, Contains, IfOk};
ghost use Rattle.hw_net.specs.declared.netlist.NetLabel.{NetLabel};
ghost use Rattle.vl_emit.specs.inner.Spoken.{wire_at, CanBeWritten};
ghost use Rattle.vl_emit.specs.inner.Ready.{IsIndex, IsNet, IsSource, input_count, wire_in};
ghost use Rattle.vl_emit.specs.inner.Ready.{input_in};

use crate::operands::{Called, Operand};
use fx_io::OutOfMemory;
use hw_net::{NetLabel, Netlist};
use std::alloc::Global;

/// A netlist, with the place of the label of each net that has one.
#[derive(Clone, Copy)]
pub struct Source<'a> {
    pub netlist: &'a Netlist,
    pub labels: &'a [Option<usize>],
}

/// For each of so many nets the place of its label.
pub fn label_places(
    alloc: Global,
    count: usize,
    labels: &[NetLabel],
) -> Result<Vec<Option<usize>>, OutOfMemory>
    requires { (label : NetLabel) → Contains labels.now label → label.net < count }
    ensures { IfOk result (λ places. IsIndex labels.now count places.items) }
{
    let mut places: Vec<Option<usize>> = vec![in alloc; None; count]?;
    let mut left = labels.len();
    while left > 0 {
        left -= 1;
        places[labels[left].net as usize] = Some(left);
    }
    Ok(places)
}

/// A net by its number.
pub fn operand<'a>(source: Source<'a>, number: usize) -> Operand<'a>
    requires { IsNet source number }
    ensures wire { wire_at result ≡ wire_in source.entry number }
    ensures word { CanBeWritten result }
{
    let net = &source.netlist.nets()[number];
    let called = match source.labels[number] {
        Some(place) => Called::Named(source.netlist.labels()[place].name.bytes()),
        None => Called::Number(number),
    };
    Operand {
        called,
        width: u32::from(net.width),
        signed: net.signed,
    }
}

/// An input port by its place.
pub fn input_operand<'a>(source: Source<'a>, input: u32) -> Operand<'a>
    requires source { IsSource source }
    requires there { input < input_count source }
    ensures wire { wire_at result ≡ input_in source.entry input }
    ensures word { CanBeWritten result }
{
    let port = &source.netlist.inputs()[input as usize];
    let net = &source.netlist.nets()[port.net as usize];
    Operand {
        called: Called::Named(port.name.bytes()),
        width: u32::from(net.width),
        signed: net.signed,
    }
}
