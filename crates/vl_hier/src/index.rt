//! Where names stand in a list.
ghost use Rattle.std.specs.Prelude.{◌≡◌, ◌∷◌, [], ◌++◌, ℕ, List, length, map, IfOk, OnOk};
ghost use Rattle.vl_ast.specs.declared.designs.Instance.{Instance};
ghost use Rattle.vl_ast.specs.declared.designs.Link.{Link};
ghost use Rattle.vl_ast.specs.declared.modules.Port.{Port};
ghost use Rattle.vl_hier.specs.inner.Index.{IsIndexOf, first_of, has_place, is_at_once, with_place};

use fx_io::OutOfMemory;
use std::alloc::Global;
use std::collections::BTreeMap;
use vl_ast::{Instance, Link, Module, Port};

/// Where a name stands in a list (own).
#[derive(Clone, Copy)]
pub enum Found {
    /// At this place alone.
    Once(usize),
    /// At this place first, and at others.
    Often(usize),
}

/// The names of a list with their places (own).
#[derive(Drop)]
pub struct Index<'a> {
    by_name: BTreeMap<&'a [u8], Found>,
}

/// Where a name stands that stands at one more place.
fn with_place(found: Option<Found>, place: usize) -> Found
    ensures { result ≡ with_place found place }
{
    match found {
        None => Found::Once(place),
        Some(Found::Once(first) | Found::Often(first)) => Found::Often(first),
    }
}

impl<'a> Index<'a> {
    ghost use Rattle.vl_hier.specs.inner.Index.{found_in};
    ghost use Rattle.vl_ast.specs.declared.modules.Module.{Module};

    /// An index without names. It takes no memory.
    fn new(alloc: Global) -> Index<'a>
        ensures { IsIndexOf [] result }
    {
        Index {
            by_name: BTreeMap::new(alloc),
        }
    }

    /// Adds the name at the next place.
    fn add(&mut self, place: usize, name: &'a [u8]) -> Result<(), OutOfMemory>
        ensures { OnOk result ((names : List (List ℕ)) → length names ≡ place
            → IsIndexOf names self.old → IsIndexOf (names ++ name.now ∷ []) self.new) }
    {
        let found = with_place(self.find(name), place);
        self.by_name.insert(name, found)?;
        Ok(())
    }

    /// Where a name stands. `None` where it stands nowhere.
    pub fn find(&self, name: &[u8]) -> Option<Found>
        ensures { result ≡ found_in self.now name.now }
    {
        self.by_name.get(name).copied()
    }

    /// The first place of a name. `None` where it stands nowhere.
    pub fn first(&self, name: &[u8]) -> Option<usize>
        ensures { result ≡ first_of (found_in self.now name.now) }
    {
        match self.find(name) {
            None => None,
            Some(Found::Once(place) | Found::Often(place)) => Some(place),
        }
    }

    /// Whether a name stands at one place alone.
    pub fn is_at_once(&self, name: &[u8]) -> bool
        ensures { result ≡ is_at_once (found_in self.now name.now) }
    {
        matches!(self.find(name), Some(Found::Once(_)))
    }

    /// Whether a name stands anywhere.
    pub fn has(&self, name: &[u8]) -> bool
        ensures { result ≡ has_place (found_in self.now name.now) }
    {
        self.find(name).is_some()
    }

    /// The names of modules.
    pub fn of_modules(alloc: Global, modules: &'a [Module]) -> Result<Index<'a>, OutOfMemory>
        ensures { IfOk result (IsIndexOf (map (λ (m : Module). m.name) modules.now)) }
    {
        let mut index = Index::new(alloc);
        for (place, one) in modules.iter().enumerate() {
            index.add(place, one.name.bytes())?;
        }
        Ok(index)
    }

    /// The names of instances.
    pub fn of_instances(alloc: Global, instances: &'a [Instance]) -> Result<Index<'a>, OutOfMemory>
        ensures { IfOk result (IsIndexOf (map (λ (i : Instance). i.name) instances.now)) }
    {
        let mut index = Index::new(alloc);
        for (place, one) in instances.iter().enumerate() {
            index.add(place, one.name.bytes())?;
        }
        Ok(index)
    }

    /// The names of ports.
    pub fn of_ports(alloc: Global, ports: &'a [Port]) -> Result<Index<'a>, OutOfMemory>
        ensures { IfOk result (IsIndexOf (map (λ (port : Port). port.name) ports.now)) }
    {
        let mut index = Index::new(alloc);
        for (place, one) in ports.iter().enumerate() {
            index.add(place, one.name.bytes())?;
        }
        Ok(index)
    }

    /// The ports of links.
    pub fn of_links(alloc: Global, links: &'a [Link]) -> Result<Index<'a>, OutOfMemory>
        ensures { IfOk result (IsIndexOf (map (λ (link : Link). link.port) links.now)) }
    {
        let mut index = Index::new(alloc);
        for (place, one) in links.iter().enumerate() {
            index.add(place, one.port.bytes())?;
        }
        Ok(index)
    }
}
