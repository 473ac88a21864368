//! Whether instances are linked as they must be. Each look-up is by a name: what is held to the length
//! of a text goes over it once.
ghost use Rattle.std.specs.Prelude.{◌≡◌, IfOk, List};
ghost use Rattle.std.specs.List.{list_all};
ghost use Rattle.vl_ast.specs.declared.designs.Instance.{Instance};
ghost use Rattle.vl_ast.specs.declared.designs.Link.{Link};
ghost use Rattle.vl_ast.specs.declared.modules.Module.{Module};
ghost use Rattle.vl_ast.specs.declared.modules.Port.{Port};
ghost use Rattle.vl_ast.specs.Drivers.{declares};
ghost use Rattle.vl_hier.specs.Linked.{head_of};
ghost use Rattle.vl_hier.specs.inner.Index.{found_in, has_place};
ghost use Rattle.vl_hier.specs.inner.Nets.{AreNets, top_declared};
ghost use Rattle.vl_hier.specs.inner.Tables.{AreTables, is_led, leads_by};
ghost use Rattle.vl_hier.specs.inner.Tests as test;

use crate::index::{Found, Index};
use crate::nets::Nets;
use crate::tables::Tables;
use fx_io::OutOfMemory;
use std::alloc::Global;
use vl_ast::{Instance, Link, ModItem, Module, Port};
use vl_inner::{inner_name, is_shared};
use vl_names::is_identifier;

/// Whether an item declares a net; else it drives one.
pub fn declares(item: &ModItem) -> bool
    ensures { result ≡ declares item.now }
{
    matches!(item, ModItem::Wire { .. } | ModItem::Reg { .. })
}

/// Whether a link of this port leads to a net that fits it.
fn leads_well<'a>(nets: &Nets<'a>, port: &Port, link: &'a Link) -> bool
    ensures { result ≡ leads_by nets.now port.now link.now }
{
    let (name, net) = (port.name.bytes(), link.net.bytes());
    nets.fit(port, net) && (!is_shared(name) || net == name)
}

/// Whether one link is of this port, and leads to a net that fits it.
fn is_led<'a>(nets: &Nets<'a>, by_port: &Index<'_>, links: &'a [Link], port: &Port) -> bool
    ensures { result ≡ is_led nets.now by_port.now links.now port.now }
{
    let Some(Found::Once(place)) = by_port.find(port.name.bytes()) else {
        return false;
    };
    match links.get(place) {
        None => false,
        Some(link) => leads_well(nets, port, link),
    }
}

fn each_is_led<'a>(nets: &Nets<'a>, by_port: &Index<'_>, ports: &[Port], links: &'a [Link]) -> bool
    ensures { result ≡ list_all (is_led nets.now by_port.now links.now) ports.now }
{
    let mut led = true;
    for port in ports {
        led &= is_led(nets, by_port, links, port);
    }
    led
}

fn are_of_ports(by_name: &Index<'_>, links: &[Link]) -> bool
    ensures { result
        ≡ list_all (λ (link : Link). has_place (found_in by_name.now link.port)) links.now }
{
    links.iter().all(|link| by_name.has(link.port.bytes()))
}

/// Whether each port has one link, each link is of a port, and each leads to a net that fits. The only
/// error is want of memory.
fn are_ports_linked<'a>(
    alloc: Global,
    nets: &Nets<'a>,
    ports: &[Port],
    links: &'a [Link],
) -> Result<bool, OutOfMemory>
    ensures { (top : Module) → AreNets (top_declared top) nets.now
        → IfOk result (λ linked. linked ≡ test.are_ports_linked top ports.now links.now) }
{
    let by_port = Index::of_links(alloc, links)?;
    let by_name = Index::of_ports(alloc, ports)?;
    Ok(are_of_ports(&by_name, links) & each_is_led(nets, &by_port, ports, links))
}

/// Whether no other instance has the name of one, and no name of another or of the top begins with it
/// and `_`.
fn are_names_apart<'a>(tables: &Tables<'a>, name: &[u8], head: &'a [u8]) -> bool
    ensures { (below : List Module) (top : Module) (instances : List Instance)
        → AreTables below top instances tables.now
        → result ≡ test.are_names_apart instances top name.now head.now }
{
    tables.instances.is_at_once(name) & !tables.names.begin_with(head)
}

/// Whether a name is an identifier where its module stands by this name. The only error is want of
/// memory.
fn is_word(alloc: Global, head: &[u8], name: &[u8]) -> Result<bool, OutOfMemory>
    ensures { IfOk result (λ word. word ≡ test.is_word head.now name.now) }
{
    let inner = inner_name(alloc, head, name)?;
    Ok(is_identifier(inner.bytes()))
}

fn ports_are_words(alloc: Global, head: &[u8], ports: &[Port]) -> Result<bool, OutOfMemory>
    ensures { IfOk result (λ words. words
        ≡ list_all (λ (port : Port). test.is_word head.now port.name) ports.now) }
{
    let mut words = true;
    for port in ports {
        words &= is_word(alloc, head, port.name.bytes())?;
    }
    Ok(words)
}

fn item_is_word(alloc: Global, head: &[u8], item: &ModItem) -> Result<bool, OutOfMemory>
    ensures { IfOk result (λ word. word ≡ test.item_is_word head.now item.now) }
{
    if declares(item) {
        is_word(alloc, head, item.name())
    } else {
        Ok(true)
    }
}

fn items_are_words(alloc: Global, head: &[u8], items: &[ModItem]) -> Result<bool, OutOfMemory>
    ensures { IfOk result (λ words. words ≡ list_all (test.item_is_word head.now) items.now) }
{
    let mut words = true;
    for item in items {
        words &= item_is_word(alloc, head, item)?;
    }
    Ok(words)
}

fn are_words(alloc: Global, head: &[u8], of: &Module) -> Result<bool, OutOfMemory>
    ensures { IfOk result (λ words. words ≡ test.are_words head.now of.now) }
{
    let ports = ports_are_words(alloc, head, of.ports.as_slice())?;
    Ok(ports & items_are_words(alloc, head, of.items.as_slice())?)
}

/// Whether an instance is linked as it must be. `head` begins the names of its nets. The only error is
/// want of memory.
pub fn is_linked<'a>(
    alloc: Global,
    tables: &Tables<'a>,
    one: &'a Instance,
    head: &'a [u8],
) -> Result<bool, OutOfMemory>
    ensures { (below : List Module) (top : Module) (instances : List Instance)
        → AreTables below top instances tables.now → head.now ≡ head_of one.now
        → IfOk result (λ linked. linked ≡ test.is_linked instances below top one.now) }
{
    let Some(of) = tables.modules.named(one.of.bytes()) else {
        return Ok(false);
    };
    let name = one.name.bytes();
    let ports = are_ports_linked(
        alloc,
        &tables.nets,
        of.ports.as_slice(),
        one.links.as_slice(),
    )?;
    let apart = are_names_apart(tables, name, head);
    let words = are_words(alloc, name, of)?;
    Ok(ports & apart & words)
}
