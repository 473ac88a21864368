ghost use Rattle.std.specs.Prelude.{◌≡◌, ◌||◌, codes, nat_le, not, option_map};
ghost use Rattle.std.specs.List.{list_any};
ghost use Rattle.vl_ast.specs.Conditions.{is_read_of, no_reset};
ghost use Rattle.vl_ast.specs.Control.{is_bit_input};
ghost use Rattle.vl_ast.specs.Nets.{is_mention_of, mentions};
ghost use Rattle.vl_check.specs.inner.ClockNames.{first_of_both, name_at_fault, place_in};
ghost use Rattle.vl_check.specs.inner.Mentions.{mention_of, shown};

use crate::mentions::Mention;
use vl_ast::{Module, Port};

/// Whether a name stands at the place.
pub fn is_mention_of(mention: &Mention<'_>, name: &[u8]) -> bool
    ensures { result ≡ is_mention_of name.now (mention_of mention.now) }
{
    match mention {
        Mention::Declares(declared) => declared.name == name,
        Mention::Drives { name: used, .. } | Mention::Reads(used) => *used == name,
        Mention::Clocks => b"clk".as_slice() == name || b"reset".as_slice() == name,
    }
}

/// How many places of names stand before the first of this one.
fn place_of(text: &[Mention<'_>], name: &[u8]) -> usize
    ensures { result ≡ place_in text.now name.now }
{
    let mut place = 0;
    for mention in text {
        if is_mention_of(mention, name) {
            return place;
        }
        place += 1;
    }
    place
}

fn is_bit_input(port: &Port, name: &[u8]) -> bool
    ensures { result ≡ is_bit_input name.now port.now }
{
    port.name.bytes() == name && port.input && !port.signed && port.width == 1
}

/// Whether one of the ports is an unsigned input of one bit with this name.
pub fn has_bit_input(ports: &[Port], name: &[u8]) -> bool
    ensures { result ≡ list_any (is_bit_input name.now) ports.now }
{
    ports.iter().any(|port| is_bit_input(port, name))
}

fn is_read_of(mention: &Mention<'_>, name: &[u8]) -> bool
    ensures { result ≡ is_read_of name.now (mention_of mention.now) }
{
    match mention {
        Mention::Reads(read) => *read == name,
        Mention::Declares(_) | Mention::Drives { .. } | Mention::Clocks => false,
    }
}

fn is_read(text: &[Mention<'_>], name: &[u8]) -> bool
    ensures { result ≡ list_any (λ x. is_read_of name.now (mention_of x)) text.now }
{
    text.iter().any(|mention| is_read_of(mention, name))
}

fn is_clk_at_fault(text: &[Mention<'_>], ports: &[Port]) -> bool
    ensures { result ≡ (not (list_any (is_bit_input (codes "clk")) ports.now) || list_any
        (λ x. is_read_of (codes "clk") (mention_of x)) text.now) }
{
    if has_bit_input(ports, b"clk") {
        is_read(text, b"clk")
    } else {
        true
    }
}

fn is_before(text: &[Mention<'_>], name: &[u8], other: &[u8]) -> bool
    ensures { result ≡ nat_le (place_in text.now name.now) (place_in text.now other.now) }
{
    place_of(text, name) <= place_of(text, other)
}

/// Of `clk` and `reset` the one that stands first in the text.
fn first_of_both(text: &[Mention<'_>]) -> &'static [u8]
    ensures { result.now ≡ first_of_both
        (nat_le (place_in text.now (codes "clk")) (place_in text.now (codes "reset"))) }
{
    if is_before(text, b"clk", b"reset") {
        b"clk"
    } else {
        b"reset"
    }
}

fn name_at_fault(clk: bool, reset: bool, first: &'static [u8]) -> Option<&'static [u8]>
    ensures { option_map (λ name. name.now) result ≡ name_at_fault clk reset first.now }
{
    if clk {
        if reset { Some(first) } else { Some(b"clk") }
    } else {
        if reset { Some(b"reset") } else { None }
    }
}

/// `clk` or `reset`, where it isn't an unsigned input of one bit, or `clk` is read: of both the one that
/// stands first in the text.
pub fn no_reset(text: &[Mention<'_>], source: &Module) -> Option<&'static [u8]>
    requires { shown text.now ≡ mentions source.now }
    ensures { option_map (λ name. name.now) result ≡ no_reset source.now }
{
    let ports = source.ports.as_slice();
    name_at_fault(
        is_clk_at_fault(text, ports),
        !has_bit_input(ports, b"reset"),
        first_of_both(text),
    )
}
