//! What the links of an instance assign.
ghost use Rattle.std.specs.Prelude.{◌≡◌, ◌++◌, flat_map, map};
ghost use Rattle.vl_ast.specs.declared.modules.Port.{Port};
ghost use Rattle.vl_ast.specs.Listing.{Lists};
ghost use Rattle.vl_hier.specs.Flat.{inward, is_input, is_some_input, outward};
ghost use Rattle.vl_hier.specs.inner.Index.{IsIndexOf};
ghost use Rattle.vl_hier.specs.inner.Puts.{link_items};
ghost use Rattle.vl_hier.specs.inner.Tables.{at_place};

use crate::index::Index;
use fx_io::Text;
use std::alloc::Global;
use vl_ast::{Link, Listing, ModItem, Port, named, put_assignment};
use vl_inner::{inner_name, is_shared};

/// Which way bits go by a link.
#[derive(Clone, Copy)]
enum Way {
    Inward,
    Outward,
}

/// Whether there is a port at a place, and it is an input.
fn is_input_at(ports: &[Port], place: Option<usize>) -> bool
    ensures { result ≡ is_some_input (at_place ports.now place) }
{
    let Some(place) = place else {
        return false;
    };
    match ports.get(place) {
        None => false,
        Some(port) => port.input,
    }
}

/// Whether the first port of this name is an input.
fn is_input(by_name: &Index<'_>, ports: &[Port], name: &[u8]) -> bool
    requires { IsIndexOf (map (λ (port : Port). port.name) ports.now) by_name.now }
    ensures { result ≡ is_input ports.now name.now }
{
    is_input_at(ports, by_name.first(name))
}

/// Puts what a link assigns, if bits go by it this way.
fn put_link(
    alloc: Global,
    out: &mut Listing<ModItem>,
    way: Way,
    by_name: &Index<'_>,
    ports: &[Port],
    head: &[u8],
    link: &Link,
)
    requires { IsIndexOf (map (λ (port : Port). port.name) ports.now) by_name.now }
    ensures { Lists out.old out.new (link_items way ports.now head.now link.now) }
{
    let port = link.port.bytes();
    if is_shared(port) {
        return;
    }
    let input = is_input(by_name, ports, port);
    let inner = inner_name(alloc, head, port);
    let net = Text::copy(alloc, link.net.bytes());
    match way {
        Way::Inward => {
            if input {
                put_assignment(out, inner, named(net));
            }
        }
        Way::Outward => {
            if !input {
                put_assignment(out, net, named(inner));
            }
        }
    }
}

/// Puts what the links assign by which bits go this way.
fn put_way(
    alloc: Global,
    out: &mut Listing<ModItem>,
    way: Way,
    by_name: &Index<'_>,
    ports: &[Port],
    head: &[u8],
    links: &[Link],
)
    requires { IsIndexOf (map (λ (port : Port). port.name) ports.now) by_name.now }
    ensures { Lists out.old out.new (flat_map (link_items way ports.now head.now) links.now) }
{
    for link in links {
        put_link(alloc, out, way, by_name, ports, head, link);
    }
}

/// Puts what the links of an instance assign, those of inputs first.
pub fn put_links(
    alloc: Global,
    out: &mut Listing<ModItem>,
    ports: &[Port],
    head: &[u8],
    links: &[Link],
)
    ensures { Lists out.old out.new (flat_map (inward ports.now head.now) links.now
        ++ flat_map (outward ports.now head.now) links.now) }
{
    match Index::of_ports(alloc, ports) {
        // allocation: the index of the ports
        Err(_wanting) => out.wanting = true,
        Ok(by_name) => {
            put_way(alloc, out, Way::Inward, &by_name, ports, head, links);
            put_way(alloc, out, Way::Outward, &by_name, ports, head, links);
        }
    }
}
