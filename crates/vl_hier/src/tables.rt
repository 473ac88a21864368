//! What the instances of a design are held to, by names.
ghost use Rattle.std.specs.Prelude.{◌≡◌, List, IfOk, map, option_map};
ghost use Rattle.vl_hier.specs.inner.Tables.{AreModules, AreTables, module_by};

use crate::index::{Found, Index};
use crate::names::Names;
use crate::nets::Nets;
use fx_io::OutOfMemory;
use std::alloc::Global;
use vl_ast::{Instance, Module};

/// The modules before the top, by their names (own).
#[derive(Drop)]
pub struct Modules<'a> {
    below: &'a [Module],
    by_name: Index<'a>,
}

impl<'a> Modules<'a> {
    /// These modules. The only error is want of memory.
    pub fn of(alloc: Global, below: &'a [Module]) -> Result<Modules<'a>, OutOfMemory>
        ensures { IfOk result (AreModules below.now) }
    {
        let by_name = Index::of_modules(alloc, below)?;
        Ok(Modules { below, by_name })
    }

    /// The module of this name, where there is exactly one.
    pub fn named(&self, name: &[u8]) -> Option<&'a Module>
        ensures { option_map (λ m. m.now) result ≡ module_by self.now name.now }
    {
        match self.by_name.find(name) {
            Some(Found::Once(place)) => self.below.get(place),
            _ => None,
        }
    }
}

/// What the instances of a design are held to (own).
#[derive(Drop)]
pub struct Tables<'a> {
    pub modules: Modules<'a>,
    /// The instances by their names.
    pub instances: Index<'a>,
    /// The names of instances and of nets of the top.
    pub names: Names<'a>,
    pub nets: Nets<'a>,
}

impl<'a> Tables<'a> {
    /// Those of a design. The only error is want of memory.
    pub fn of(
        alloc: Global,
        below: &'a [Module],
        top: &'a Module,
        instances: &'a [Instance],
    ) -> Result<Tables<'a>, OutOfMemory>
        ensures { IfOk result (AreTables below.now top.now instances.now) }
    {
        let modules = Modules::of(alloc, below)?;
        let by_name = Index::of_instances(alloc, instances)?;
        let names = Names::of(alloc, instances, top)?;
        let nets = Nets::of(alloc, top)?;
        Ok(Tables {
            modules,
            instances: by_name,
            names,
            nets,
        })
    }
}
