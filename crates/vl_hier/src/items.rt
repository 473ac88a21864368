//! The items of a module in a flat one.
ghost use Rattle.std.specs.Prelude.{◌≡◌, flat_map};
ghost use Rattle.vl_ast.specs.Listing.{Lists};
ghost use Rattle.vl_inner.specs.Names.{name_by};
ghost use Rattle.vl_hier.specs.Flat.{port_wire};
ghost use Rattle.vl_hier.specs.inner.Puts.{is_of, part_items};

use crate::linking::declares;
use std::alloc::Global;
use vl_ast::{Listing, ModItem, Port, put_declaration};
use vl_inner::{Naming, inner_name, is_shared, put_renamed};

/// A part of a module's items.
#[derive(Clone, Copy)]
pub enum Part {
    /// Those that declare nets.
    Nets,
    /// Those that drive nets.
    Drivers,
}

fn is_of(part: Part, item: &ModItem) -> bool
    ensures { result ≡ is_of part item.now }
{
    match part {
        Part::Nets => declares(item),
        Part::Drivers => !declares(item),
    }
}

/// Puts a part of a module's items, their names called so.
pub fn put_part(
    alloc: Global,
    out: &mut Listing<ModItem>,
    naming: Naming<'_>,
    part: Part,
    items: &[ModItem],
)
    ensures { Lists out.old out.new
        (flat_map (part_items part (name_by naming.entry)) items.now) }
{
    for item in items {
        if is_of(part, item) {
            put_renamed(alloc, out, naming, item);
        }
    }
}

/// Puts a wire for each port but `clk` and `reset`.
pub fn put_wires(alloc: Global, out: &mut Listing<ModItem>, head: &[u8], ports: &[Port])
    ensures { Lists out.old out.new (flat_map (port_wire head.now) ports.now) }
{
    for port in ports {
        if !is_shared(port.name.bytes()) {
            let name = inner_name(alloc, head, port.name.bytes());
            put_declaration(out, false, port.signed, port.width, name);
        }
    }
}
