ghost use Rattle.std.specs.Prelude.{◌≡◌, ◌&&◌, bytes_eq, codes, find, if◌then◌else◌, not, option_map};
ghost use Rattle.vl_ast.specs.Conditions.{lacks_attribute, no_attribute};
ghost use Rattle.vl_ast.specs.Control.{is_clock_or_reset, is_control_input, is_control_output};
ghost use Rattle.vl_ast.specs.Control.{is_number_input, is_number_output, is_stallable};

use crate::clocking::has_bit_input;
use vl_ast::{Module, Port, cycles_of, latency_of, period_of};

fn is_clock_or_reset(port: &Port) -> bool
    ensures { result ≡ is_clock_or_reset port.now }
{
    let name = port.name.bytes();
    name == b"clk".as_slice() || name == b"reset".as_slice()
}

/// Whether the module can be stalled: it has an unsigned input `clk_enable` of one bit (own).
pub fn is_stallable(source: &Module) -> bool
    ensures { result ≡ is_stallable source.now }
{
    has_bit_input(source.ports.as_slice(), b"clk_enable")
}

fn is_control_input(port: &Port, stalls: bool) -> bool
    ensures { result ≡ is_control_input stalls port.now }
{
    (stalls && port.name.bytes() == b"clk_enable".as_slice()) || is_clock_or_reset(port)
}

fn is_control_output(port: &Port, stalls: bool) -> bool
    ensures { result ≡ is_control_output stalls port.now }
{
    stalls && port.name.bytes() == b"ce_out".as_slice() && !port.signed && port.width == 1
}

/// Whether the port is an input, and not `clk`.
pub fn is_driven_input(port: &Port) -> bool
    ensures { result ≡ (port.now.input && not (bytes_eq port.now.name (codes "clk"))) }
{
    port.input && port.name.bytes() != b"clk".as_slice()
}

/// Whether the port of a module that stalls or doesn't is an input that carries numbers: none of
/// `clk`, `reset` and `clk_enable` (own).
fn is_number_input(port: &Port, stalls: bool) -> bool
    ensures { result ≡ is_number_input stalls port.now }
{
    port.input && !is_control_input(port, stalls)
}

/// Whether the port of a module that stalls or doesn't is an output that carries numbers: any but an
/// unsigned `ce_out` of one bit (own).
pub fn is_number_output(port: &Port, stalls: bool) -> bool
    ensures { result ≡ is_number_output stalls port.now }
{
    !(is_control_output(port, stalls) || port.input)
}

/// Whether the port of a module that stalls or doesn't carries numbers inwards, or else outwards.
pub fn carries(port: &Port, stalls: bool, inputs: bool) -> bool
    ensures { result ≡ (if inputs then is_number_input stalls port.now
        else is_number_output stalls port.now) }
{
    if inputs {
        is_number_input(port, stalls)
    } else {
        is_number_output(port, stalls)
    }
}

fn lacks_attribute(port: &Port, stalls: bool) -> bool
    ensures { result ≡ lacks_attribute stalls port.now }
{
    if port.input {
        !is_control_input(port, stalls) && period_of(port).is_none()
    } else {
        !is_control_output(port, stalls)
            && (period_of(port).is_none() || latency_of(port).is_none())
    }
}

fn first_lacking(ports: &[Port], stalls: bool) -> Option<&Port>
    ensures { option_map (λ port. port.now) result ≡ find (lacks_attribute stalls) ports.now }
{
    ports.iter().find(|port| lacks_attribute(port, stalls))
}

/// The module's name where it lacks `fx_cycles`, or else the first port that carries numbers and lacks
/// an attribute in its range.
pub fn no_attribute(source: &Module) -> Option<&[u8]>
    ensures { option_map (λ name. name.now) result ≡ no_attribute source.now }
{
    if cycles_of(source).is_none() {
        return Some(source.name.bytes());
    }
    let Some(port) = first_lacking(source.ports.as_slice(), is_stallable(source)) else {
        return None;
    };
    Some(port.name.bytes())
}
