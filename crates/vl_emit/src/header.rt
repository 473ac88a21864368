//! The header of a netlist's module.
ghost use Rattle.std.specs.Prelude.{map};
ghost use Rattle.vl_ast.specs.Listing.{Holds, Lists};
ghost use Rattle.vl_emit.specs.Header.{ports_of};
ghost use Rattle.vl_emit.specs.inner.Ready.{AreReady, AreThere, port_of};

use hw_net::{NetPort, Netlist};
use std::alloc::Global;
use vl_ast::{Listing, Port, begin, put_bit_port, put_data_port};

/// Puts inputs, or else outputs, behind the others.
fn put_each(alloc: Global, out: &mut Listing<Port>, netlist: &Netlist, own: &[NetPort], input: bool)
    requires { AreThere netlist.now own.now }
    ensures { Lists out.old out.new (map (port_of input netlist.now) own.now) }
{
    for port in own {
        let net = &netlist.nets()[port.net as usize];
        let word = (u32::from(net.width), net.signed);
        let period = u64::from(port.period);
        let name = port.name.bytes();
        put_data_port(alloc, out, name, input, word, period, port.latency);
    }
}

/// The clock, the reset, the clock enable, and the ports of a netlist in order, with `ce_out`
/// before its outputs.
pub fn ports_of(alloc: Global, netlist: &Netlist) -> Listing<Port>
    requires { AreReady netlist.now }
    ensures { Holds result (ports_of netlist.now) }
{
    let mut out = begin(alloc);
    put_bit_port(alloc, &mut out, b"clk", true);
    put_bit_port(alloc, &mut out, b"reset", true);
    put_bit_port(alloc, &mut out, b"clk_enable", true);
    put_each(alloc, &mut out, netlist, netlist.inputs(), true);
    put_bit_port(alloc, &mut out, b"ce_out", false);
    put_each(alloc, &mut out, netlist, netlist.outputs(), false);
    out
}
