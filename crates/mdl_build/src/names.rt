//! The blocks of a tree, and their names.
ghost use Rattle.std.specs.Prelude.{◌≡◌, ◌<◌, ◌++◌, ◌∷◌, [], length, vec_len, IfOk, OnOk, MatchBool};
ghost use Rattle.mdl_build.specs.Roles.{is_block};
ghost use Rattle.mdl_build.specs.inner.Names.{IsKeyAt};

use crate::layout::Layout;
use crate::roles::Role;
use fx_io::OutOfMemory;
use std::alloc::Global;
use std::collections::BTreeMap;

/// The most blocks of a model.
const MOST: usize = 20000;

/// The place of a System, and a name in it.
type Key<'a> = (usize, &'a [u8]);

/// The blocks of a tree in file order, and their numbers by name.
#[derive(Drop)]
pub struct Blocks<'a> {
    /// The places of their sections.
    places: Vec<usize>,
    /// Of each name of a System, the number of its first block.
    numbers: BTreeMap<Key<'a>, u32>,
}

/// Whether an item is a block.
pub fn is_block(role: Role) -> bool
    ensures { result ≡ is_block role }
{
    matches!(role, Role::Block(_) | Role::SubSystem(_) | Role::Filter(_))
}

/// The name of the block at a place, in its System.
fn key_of<'a>(layout: &Layout<'a>, place: usize) -> Option<Key<'a>>
    requires { place < length layout.now.items.now }
    ensures { IsKeyAt layout.now.items.now place result }
{
    let Some(system) = layout.holder(place) else {
        return None;
    };
    match layout.value(place, b"Name") {
        None => None,
        Some(name) => Some((system, name)),
    }
}

impl<'a> Blocks<'a> {
    ghost use Rattle.std.specs.Prelude.{nat_le, false, List};
    ghost use Rattle.mdl_text.specs.declared.tree.Item.{Item};
    ghost use Rattle.mdl_build.specs.Blocks.{number_of};
    ghost use Rattle.mdl_build.specs.Roles.{roles_of, blocks_of};
    ghost use Rattle.mdl_build.specs.inner.Names.{AreNumbered, AreBlocks};

    /// No blocks.
    pub fn none(alloc: Global) -> Blocks<'a>
        ensures { (items : List Item) → (result.places.items ≡ []) × AreNumbered items result }
    {
        Blocks {
            places: Vec::new(alloc),
            numbers: BTreeMap::new(alloc),
        }
    }

    /// Puts the next block at the end.
    fn add(&mut self, layout: &Layout<'a>, place: usize) -> Result<(), OutOfMemory>
        requires within { place < length layout.now.items.now }
        requires few { vec_len self.old.places < 20000 }
        requires numbered { AreNumbered layout.now.items.now self.old }
        ensures places { OnOk result (self.new.places.items ≡ self.old.places.items ++ place ∷ []) }
        ensures numbered { OnOk result (AreNumbered layout.now.items.now self.new) }
    {
        if let Some(key) = key_of(layout, place) {
            if !self.numbers.contains_key(&key) {
                self.numbers.insert(key, self.places.len() as u32)?;
            }
        }
        self.places.push(place)?;
        Ok(())
    }

    /// Puts the blocks among the items. Tells whether there are no more than a model may have.
    pub fn add_all(&mut self, layout: &Layout<'a>, roles: &[Role]) -> Result<bool, OutOfMemory>
        requires roles { roles.now ≡ roles_of layout.now.items.now }
        requires none { self.old.places.items ≡ [] }
        requires numbered { AreNumbered layout.now.items.now self.old }
        ensures { IfOk result (λ few. MatchBool few (AreBlocks layout.now.items.now self.new)
            (nat_le (length (blocks_of layout.now.items.now)) 20000 ≡ false)) }
    {
        for (place, role) in roles.iter().enumerate() {
            if is_block(*role) {
                if self.places.len() == MOST {
                    return Ok(false);
                }
                self.add(layout, place)?;
            }
        }
        Ok(true)
    }

    /// The places of their sections.
    pub fn places(&self) -> &[usize]
        ensures { result.now ≡ self.now.places.items }
    {
        self.places.as_slice()
    }

    /// The number of the first block of this name in a System.
    pub fn number(&self, system: usize, name: &'a [u8]) -> Option<u32>
        ensures { (items : List Item) → AreBlocks items self.now
            → result ≡ number_of items system name.now }
    {
        match self.numbers.get(&(system, name)) {
            None => None,
            Some(number) => Some(*number),
        }
    }
}
