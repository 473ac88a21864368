//! The blocks of a tree that keeps the rules of structure and of library.
ghost use Rattle.std.specs.Prelude.{◌≡◌, ℕ, ◌<◌, ◌++◌, ◌∷◌, [], true, List, length, option_map, unwrap_or, IfOk, IfErr};
ghost use Rattle.std.specs.Option.{ForSome};
ghost use Rattle.dg_model.specs.Faults.{IsRefusal};
ghost use Rattle.mdl_build.specs.Blocks.{number_at, standing_in};
ghost use Rattle.mdl_build.specs.Nested.{IsDrawnAt};
ghost use Rattle.mdl_build.specs.Roles.{role_of, is_block, blocks_of};
ghost use Rattle.mdl_build.specs.Sections.{holder_of, value_of};
ghost use Rattle.mdl_build.specs.Settings.{unset};
ghost use Rattle.mdl_build.specs.inner.ItemFacts.{IsKnown, AreEnabled, AreNumbersTo, AreNumbers, IsWrongAt};

use crate::blocks::read_block;
use crate::expanding::DrawnBlock;
use crate::known::Known;
use crate::layout::Layout;
use crate::library::BlockType;
use crate::lookup::{Defaults, defaults};
use crate::parts::{Standing, filter_of, part_of};
use crate::paths::parent;
use crate::settings::Settings;
use crate::type_names::number_of;
use dg_model::{CheckFault, NestedBlock, Rule};
use fx_io::{OutOfMemory, Text};
use std::alloc::Global;

/// What the blocks of a tree are made by.
#[derive(Drop)]
pub struct Maker<'k, 'a> {
    /// The tree.
    pub known: &'k Known<'a>,
    /// Of each item whether it is a System that has an EnablePort.
    enabled: Vec<bool>,
    /// Of each item that is a block its number.
    numbers: Vec<u32>,
    /// What the parameters say that a block lacks.
    defaults: Defaults<'a>,
}

/// The value of a parameter of the section at a place; none is empty.
pub fn text_or_empty<'a>(layout: &Layout<'a>, place: usize, name: &[u8]) -> &'a [u8]
    requires { place < length layout.now.items.now }
    ensures { result.now ≡ unwrap_or (value_of layout.now.items.now place name.now) [] }
{
    match layout.value(place, name) {
        None => b"",
        Some(text) => text,
    }
}

/// Notes the System of the block at a place, if that is an EnablePort.
fn add_enable(enabled: &mut Vec<bool>, layout: &Layout, place: usize)
    requires within { place < length layout.now.items.now }
    requires long { length enabled.old.items ≡ length layout.now.items.now }
    ensures { (before : List ℕ) → AreEnabled layout.now.items.now before enabled.old.items
        → AreEnabled layout.now.items.now (before ++ place ∷ []) enabled.new.items }
{
    if !layout.says(place, b"BlockType", b"EnablePort") {
        return;
    }
    let Some(system) = layout.holder(place) else {
        return;
    };
    enabled[system] = true;
}

/// Notes of each block its number, and its System, if it is an EnablePort.
fn note_blocks(enabled: &mut Vec<bool>, numbers: &mut Vec<u32>, known: &Known)
    requires known { IsKnown known.now }
    requires enabled { AreEnabled known.now.layout.items.now [] enabled.old.items }
    requires numbers { AreNumbersTo known.now.layout.items.now 0 numbers.old.items }
    ensures enabled { AreEnabled known.now.layout.items.now
        (blocks_of known.now.layout.items.now) enabled.new.items }
    ensures numbers { AreNumbers known.now.layout.items.now numbers.new.items }
{
    for (number, place) in known.blocks.places().iter().enumerate() {
        numbers[*place] = number as u32;
        add_enable(enabled, &known.layout, *place);
    }
}

impl<'k, 'a> Maker<'k, 'a> {
    ghost use Rattle.mdl_build.specs.inner.Makers.{IsMaker, IsNamedBlock, extents_of, items_of};

    /// What makes the blocks of a tree.
    pub fn new(alloc: Global, known: &'k Known<'a>) -> Result<Maker<'k, 'a>, OutOfMemory>
        requires { IsKnown known.now }
        ensures maker { IfOk result IsMaker }
        ensures items { IfOk result (λ maker. items_of maker ≡ known.now.layout.items.now) }
        ensures extents { IfOk result (λ maker. extents_of maker ≡ known.now.extents.items) }
    {
        let count = known.layout.count();
        let mut enabled = vec![in alloc; false; count]?;
        let mut numbers = vec![in alloc; 0; count]?;
        note_blocks(&mut enabled, &mut numbers, known);
        let defaults = defaults(alloc, &known.layout, &known.roles)?;
        Ok(Maker {
            known,
            enabled,
            numbers,
            defaults,
        })
    }

    /// Where the block at a place stands.
    fn standing(&self, place: usize, parent: Option<usize>) -> Standing
        requires maker { IsMaker self.now }
        requires within { place < length (items_of self.now) }
        ensures { result ≡ standing_in (items_of self.now) parent
            (holder_of (items_of self.now) place) }
    {
        if parent.is_none() {
            return Standing::Root;
        }
        let Some(system) = self.known.layout.holder(place) else {
            return Standing::Root;
        };
        if self.enabled[system] {
            Standing::Enabled
        } else {
            Standing::Plain
        }
    }

    /// The number of a subsystem.
    fn number(&self, parent: Option<usize>) -> Option<u32>
        requires maker { IsMaker self.now }
        requires within { ForSome parent (λ place. place < length (items_of self.now)) }
        requires counts { ForSome parent
            (λ place. is_block (role_of (items_of self.now) place) ≡ true) }
        ensures { result ≡ option_map (number_at (items_of self.now)) parent }
    {
        match parent {
            None => None,
            Some(place) => Some(self.numbers[place]),
        }
    }

    /// The block at a place, whose settings are put and then have their lists taken out.
    fn block_by(
        &self,
        alloc: Global,
        place: usize,
        block_type: BlockType,
        settings: &mut Settings,
    ) -> Result<DrawnBlock, CheckFault>
        requires maker { IsMaker self.now }
        requires block { IsNamedBlock (items_of self.now) place block_type }
        requires unset { settings.old ≡ unset }
        ensures ok { IfOk result (IsDrawnAt (items_of self.now) place) }
        ensures err { IfErr result (IsRefusal (IsWrongAt (items_of self.now) block_type place)) }
    {
        let layout = &self.known.layout;
        let defaults = &self.defaults[number_of(block_type)];
        if let Some(wrong) = read_block(alloc, layout, defaults, block_type, place, settings)? {
            let fault = self
                .known
                .broken_at(alloc, Rule::Parameter, place, wrong.as_bytes())?;
            return Err(CheckFault::Broken(fault));
        }
        let name = text_or_empty(layout, place, b"Name");
        let filter = filter_of(alloc, name, block_type, settings)?;
        let name = Text::copy(alloc, name)?;
        let parent = parent(layout, &self.known.roles, place);
        let part = part_of(alloc, self.standing(place, parent), block_type, settings)?;
        let block = NestedBlock {
            name,
            parent: self.number(parent),
            part,
        };
        Ok(DrawnBlock { block, filter })
    }

    /// The block at a place.
    pub fn block(
        &self,
        alloc: Global,
        place: usize,
        block_type: BlockType,
    ) -> Result<DrawnBlock, CheckFault>
        requires maker { IsMaker self.now }
        requires block { IsNamedBlock (items_of self.now) place block_type }
        ensures ok { IfOk result (IsDrawnAt (items_of self.now) place) }
        ensures err { IfErr result (IsRefusal (IsWrongAt (items_of self.now) block_type place)) }
    {
        let mut settings = Settings::unset(alloc);
        let block = self.block_by(alloc, place, block_type, &mut settings);
        drop(settings);
        block
    }
}
