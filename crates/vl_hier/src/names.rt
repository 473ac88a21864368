//! Names, and what begins them.
ghost use Rattle.std.specs.Prelude.{◌≡◌, ◌∷◌, [], ◌++◌, ℕ, List, IfOk, OnOk, flat_map, nat_eq, option_map};
ghost use Rattle.std.specs.List.{list_any, starts_with};
ghost use Rattle.vl_hier.specs.inner.Names.{AreNames, IsLeastFrom, instance_names, item_names, names_begun, port_names};

use crate::linking::declares;
use fx_io::OutOfMemory;
use std::alloc::Global;
use std::collections::BTreeSet;
use vl_ast::{Instance, ModItem, Module, Port};

/// Names of a text (own).
#[derive(Drop)]
pub struct Names<'a> {
    in_order: BTreeSet<&'a [u8]>,
}

/// The least of the names that isn't below a text.
fn least_from<'x>(in_order: &BTreeSet<&'x [u8]>, text: &'x [u8]) -> Option<&'x [u8]>
    ensures { IsLeastFrom in_order.now text.now (option_map (λ name. name.now) result) }
{
    in_order.range(text..).next().copied()
}

impl<'a> Names<'a> {
    /// No names. It takes no memory.
    fn new(alloc: Global) -> Names<'a>
        ensures { AreNames [] result }
    {
        Names {
            in_order: BTreeSet::new(alloc),
        }
    }

    /// Adds a name.
    fn add(&mut self, name: &'a [u8]) -> Result<(), OutOfMemory>
        ensures { OnOk result ((names : List (List ℕ)) → AreNames names self.old
            → AreNames (names ++ name.now ∷ []) self.new) }
    {
        self.in_order.insert(name)?;
        Ok(())
    }

    fn add_instances(&mut self, instances: &'a [Instance]) -> Result<(), OutOfMemory>
        ensures { OnOk result ((names : List (List ℕ)) → AreNames names self.old
            → AreNames (names ++ flat_map instance_names instances.now) self.new) }
    {
        for one in instances {
            self.add(one.name.bytes())?;
        }
        Ok(())
    }

    fn add_ports(&mut self, ports: &'a [Port]) -> Result<(), OutOfMemory>
        ensures { OnOk result ((names : List (List ℕ)) → AreNames names self.old
            → AreNames (names ++ flat_map port_names ports.now) self.new) }
    {
        for port in ports {
            self.add(port.name.bytes())?;
        }
        Ok(())
    }

    fn add_item(&mut self, item: &'a ModItem) -> Result<(), OutOfMemory>
        ensures { OnOk result ((names : List (List ℕ)) → AreNames names self.old
            → AreNames (names ++ item_names item.now) self.new) }
    {
        if declares(item) {
            self.add(item.name())?;
        }
        Ok(())
    }

    fn add_items(&mut self, items: &'a [ModItem]) -> Result<(), OutOfMemory>
        ensures { OnOk result ((names : List (List ℕ)) → AreNames names self.old
            → AreNames (names ++ flat_map item_names items.now) self.new) }
    {
        for item in items {
            self.add_item(item)?;
        }
        Ok(())
    }

    /// The names of instances and of what a module declares. The only error is want of memory.
    pub fn of(
        alloc: Global,
        instances: &'a [Instance],
        top: &'a Module,
    ) -> Result<Names<'a>, OutOfMemory>
        ensures { IfOk result (AreNames (names_begun instances.now top.now)) }
    {
        let mut names = Names::new(alloc);
        names.add_instances(instances)?;
        names.add_ports(top.ports.as_slice())?;
        names.add_items(top.items.as_slice())?;
        Ok(names)
    }

    /// Whether one of the names begins so.
    pub fn begin_with(&self, head: &'a [u8]) -> bool
        ensures { (names : List (List ℕ)) → AreNames names self.now
            → result ≡ list_any (λ name. starts_with nat_eq name head.now) names }
    {
        match least_from(&self.in_order, head) {
            None => false,
            Some(least) => least.starts_with(head),
        }
    }
}
