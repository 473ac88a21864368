//! The flat module of a design.
ghost use Rattle.std.specs.Prelude.{◌≡◌, ◌≢◌, ◌∷◌, [], ◌++◌, flat_map, option_map, slice_get, IfOk, Some, None};
ghost use Rattle.vl_ast.specs.declared.designs.Instance.{Instance};
ghost use Rattle.vl_ast.specs.Listing.{Holds, Lists};
ghost use Rattle.vl_hier.specs.declared.refusal.HierFault.{HierFault};
ghost use Rattle.vl_hier.specs.Fault.{IfLink, IfSyntax, IsBadFirst};
ghost use Rattle.vl_hier.specs.Flat.{IsFlatOf, drivers_by, flat_items, nets_by};
ghost use Rattle.vl_hier.specs.Linked.{HasAllLinked};
ghost use Rattle.vl_hier.specs.inner.Tables.{module_by};

use crate::copying::{copied_attrs, copied_ports};
use crate::items::{Part, put_part, put_wires};
use crate::links::put_links;
use crate::refusal::HierFault;
use crate::tables::Modules;
use crate::unlinked::first_bad;
use fx_io::{OutOfMemory, Text};
use std::alloc::Global;
use vl_ast::{Instance, Listing, ModItem, ModItems, Module, begin, finish};
use vl_inner::{Naming, renamed_is_same};
use vl_read::Design;

/// Puts what an instance declares, if its module is there.
fn put_nets(alloc: Global, out: &mut Listing<ModItem>, modules: &Modules<'_>, one: &Instance)
    ensures { Lists out.old out.new (nets_by one.now.name (module_by modules.now one.now.of)) }
{
    if let Some(of) = modules.named(one.of.bytes()) {
        let name = one.name.bytes();
        put_wires(alloc, out, name, of.ports.as_slice());
        put_part(
            alloc,
            out,
            Naming::Behind(name),
            Part::Nets,
            of.items.as_slice(),
        );
    }
}

/// Puts what an instance drives, if its module is there.
fn put_drivers(alloc: Global, out: &mut Listing<ModItem>, modules: &Modules<'_>, one: &Instance)
    ensures { Lists out.old out.new (drivers_by one.now (module_by modules.now one.now.of)) }
{
    if let Some(of) = modules.named(one.of.bytes()) {
        let name = one.name.bytes();
        let (ports, links) = (of.ports.as_slice(), one.links.as_slice());
        put_links(alloc, out, ports, name, links);
        put_part(
            alloc,
            out,
            Naming::Behind(name),
            Part::Drivers,
            of.items.as_slice(),
        );
    }
}

fn put_all_nets(alloc: Global, out: &mut Listing<ModItem>, modules: &Modules<'_>, all: &[Instance])
    ensures { Lists out.old out.new
        (flat_map (λ (i : Instance). nets_by i.name (module_by modules.now i.of)) all.now) }
{
    for one in all {
        put_nets(alloc, out, modules, one);
    }
}

fn put_all_drivers(
    alloc: Global,
    out: &mut Listing<ModItem>,
    modules: &Modules<'_>,
    all: &[Instance],
)
    ensures { Lists out.old out.new
        (flat_map (λ (i : Instance). drivers_by i (module_by modules.now i.of)) all.now) }
{
    for one in all {
        put_drivers(alloc, out, modules, one);
    }
}

/// The items of the flat module. The only error is want of memory.
fn flat_items(
    alloc: Global,
    below: &[Module],
    top: &Module,
    instances: &[Instance],
) -> Result<ModItems, OutOfMemory>
    ensures { IfOk result (λ items. items ≡ flat_items below.now top.now instances.now) }
{
    renamed_is_same();
    let modules = Modules::of(alloc, below)?;
    let items = top.items.as_slice();
    let mut out = begin(alloc);
    put_part(alloc, &mut out, Naming::Kept, Part::Nets, items);
    put_all_nets(alloc, &mut out, &modules, instances);
    put_part(alloc, &mut out, Naming::Kept, Part::Drivers, items);
    put_all_drivers(alloc, &mut out, &modules, instances);
    finish(out)
}

/// The flat module of a design: its top, with what the instances hold in place of them. `Link` has the
/// name of the first instance that isn't linked as it must be.
pub fn flat(alloc: Global, design: &Design) -> Result<Module, HierFault>
    // There is a top, as in each design that some text spells.
    requires { design.now.modules ≢ [] }
    ensures flat { IfOk result (λ m. IsFlatOf design.now m) }
    ensures linked { IfOk result (λ _. HasAllLinked design.now) }
    ensures bad { IfLink result (λ name. IsBadFirst design.now name) }
    ensures spelled { IfSyntax result (λ _. ⊥) }
{
    let modules = design.modules.as_slice();
    let instances = design.instances.as_slice();
    let Some((top, below)) = modules.split_last() else {
        unreachable!()
    };
    if let Some(place) = first_bad(alloc, below, top, instances)? {
        let name = Text::copy(alloc, instances[place].name.bytes())?;
        return Err(HierFault::Link { name });
    }
    let name = Text::copy(alloc, top.name.bytes())?;
    let attrs = copied_attrs(alloc, top.attrs.as_slice())?;
    let ports = copied_ports(alloc, top.ports.as_slice())?;
    let items = flat_items(alloc, below, top, instances)?;
    Ok(Module {
        name,
        attrs,
        ports,
        items,
    })
}
