//! The nets of the top by name, width and sign.
ghost use Rattle.std.specs.Prelude.{◌≡◌, ◌∷◌, [], ◌++◌, ℕ, List, IfOk, OnOk, flat_map};
ghost use Rattle.vl_ast.specs.Nets.{Declared};
ghost use Rattle.vl_hier.specs.inner.Nets.{AreNets, is_held, item_declared, port_declared, top_declared, word_of};

use fx_io::OutOfMemory;
use std::alloc::Global;
use std::collections::BTreeSet;
use vl_ast::{ModItem, Module, Port};

/// The width and the sign of a net in one number, and its name.
type Key<'a> = (u64, &'a [u8]);

/// The nets that a module declares (own).
#[derive(Drop)]
pub struct Nets<'a> {
    keys: BTreeSet<Key<'a>>,
}

/// A width and a sign in one number.
fn word_of(width: u32, signed: bool) -> u64
    ensures { result ≡ word_of width signed }
{
    u64::from(width) * 2 + u64::from(signed)
}

impl<'a> Nets<'a> {
    /// No nets. It takes no memory.
    fn new(alloc: Global) -> Nets<'a>
        ensures { AreNets [] result }
    {
        Nets {
            keys: BTreeSet::new(alloc),
        }
    }

    fn add(&mut self, width: u32, signed: bool, name: &'a [u8]) -> Result<(), OutOfMemory>
        ensures { OnOk result ((declared : List Declared) (next : Declared)
            → next.name ≡ name.now → next.net.width ≡ width → next.net.signed ≡ signed
            → AreNets declared self.old → AreNets (declared ++ next ∷ []) self.new) }
    {
        self.keys.insert((word_of(width, signed), name))?;
        Ok(())
    }

    fn add_ports(&mut self, ports: &'a [Port]) -> Result<(), OutOfMemory>
        ensures { OnOk result ((declared : List Declared) → AreNets declared self.old
            → AreNets (declared ++ flat_map port_declared ports.now) self.new) }
    {
        for port in ports {
            self.add(port.width, port.signed, port.name.bytes())?;
        }
        Ok(())
    }

    fn add_item(&mut self, item: &'a ModItem) -> Result<(), OutOfMemory>
        ensures { OnOk result ((declared : List Declared) → AreNets declared self.old
            → AreNets (declared ++ item_declared item.now) self.new) }
    {
        match item {
            ModItem::Wire {
                signed,
                width,
                name,
            } => self.add(*width, *signed, name.bytes()),
            ModItem::Reg {
                signed,
                width,
                name,
            } => self.add(*width, *signed, name.bytes()),
            ModItem::Assign { .. } | ModItem::Always { .. } => Ok(()),
        }
    }

    fn add_items(&mut self, items: &'a [ModItem]) -> Result<(), OutOfMemory>
        ensures { OnOk result ((declared : List Declared) → AreNets declared self.old
            → AreNets (declared ++ flat_map item_declared items.now) self.new) }
    {
        for item in items {
            self.add_item(item)?;
        }
        Ok(())
    }

    /// The nets that a module declares. The only error is want of memory.
    pub fn of(alloc: Global, top: &'a Module) -> Result<Nets<'a>, OutOfMemory>
        ensures { IfOk result (AreNets (top_declared top.now)) }
    {
        let mut nets = Nets::new(alloc);
        nets.add_ports(top.ports.as_slice())?;
        nets.add_items(top.items.as_slice())?;
        Ok(nets)
    }

    /// Whether one of them has this name, and the width and the sign of a port.
    pub fn fit(&self, port: &Port, net: &'a [u8]) -> bool
        ensures { result ≡ is_held self.now port.now net.now }
    {
        self.keys.contains(&(word_of(port.width, port.signed), net))
    }
}
