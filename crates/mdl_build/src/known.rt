//! A tree with what is known of its items, and the rule of structure.
ghost use Rattle.std.specs.Prelude.{◌≡◌, ◌<◌, true, [], length, IfOk, option_map, find, not};
ghost use Rattle.dg_model.specs.declared.fault.CheckFault.TheVariants.{Broken};
ghost use Rattle.dg_model.specs.declared.fault.Shown.TheVariants.{Nothing, Word};
ghost use Rattle.dg_model.specs.declared.rule.Rule.{Rule};
ghost use Rattle.dg_model.specs.Faults.{fault_of};
ghost use Rattle.mdl_build.specs.Blocks.{path_of};
ghost use Rattle.mdl_build.specs.Roles.{role_of, is_block, blocks_of};
ghost use Rattle.mdl_build.specs.Rules.{keeps_structure};
ghost use Rattle.mdl_build.specs.inner.ItemFacts.{IsKnown, IsKnownOf};

use crate::extents::{are_few, extents_of};
use crate::layout::Layout;
use crate::names::Blocks;
use crate::paths::path_of;
use crate::roles::{Role, roles};
use crate::structure::{first_misshapen, has_shape};
use dg_model::{CheckFault, Rule, RuleFault, Shown};
use fx_io::{OutOfMemory, Text};
use mdl_text::Item;
use std::alloc::Global;

/// A tree with what is known of its items.
#[derive(Drop)]
pub struct Known<'a> {
    /// Its items.
    pub layout: Layout<'a>,
    /// What each of them is.
    pub roles: Vec<Role>,
    /// The blocks among them.
    pub blocks: Blocks<'a>,
    /// How many blocks each of these stands for.
    pub extents: Vec<u32>,
}

/// A broken rule.
fn rule_fault(rule: Rule, place: Text, shown: Shown) -> RuleFault
    ensures { result ≡ fault_of rule place shown }
{
    RuleFault { rule, place, shown }
}

/// The rule of structure, broken by the model.
pub fn broken_model() -> CheckFault
    ensures { result ≡ Broken (fault_of Rule.Structure [] Nothing) }
{
    CheckFault::Broken(rule_fault(Rule::Structure, Text::new(), Shown::Nothing))
}

/// What is known of the items of a tree. None where it has no root, is too deep, or has more blocks
/// than a model may have.
pub fn known_of<'a>(alloc: Global, items: &'a [Item]) -> Result<Option<Known<'a>>, OutOfMemory>
    ensures { IfOk result (IsKnownOf items.now) }
{
    let layout = Layout::new(alloc, items)?;
    let roles = roles(alloc, &layout)?;
    let extents = extents_of(alloc, &layout, &roles)?;
    let mut known = Known {
        layout,
        roles,
        blocks: Blocks::none(alloc),
        extents,
    };
    match known.find_blocks() {
        Ok(true) => Ok(Some(known)),
        Ok(false) => {
            drop(known);
            Ok(None)
        }
        Err(wanting) => {
            drop(known);
            Err(wanting)
        }
    }
}

impl<'a> Known<'a> {
    ghost use Rattle.mdl_build.specs.Extents.{AreExtents};
    ghost use Rattle.mdl_build.specs.Roles.{roles_of};
    ghost use Rattle.mdl_build.specs.inner.ItemFacts.{IsFound, keeps_sizes};
    ghost use Rattle.mdl_build.specs.inner.Names.{AreNumbered};

    /// Whether the model has its root, is shallow, and has no more blocks than it may.
    fn keeps_sizes(&self) -> bool
        requires roles { self.now.roles.items ≡ roles_of self.now.layout.items.now }
        requires extents { AreExtents self.now.layout.items.now self.now.extents.items }
        ensures { result ≡ keeps_sizes self.now.extents.items self.now.layout.items.now }
    {
        has_shape(&self.roles) && are_few(&self.extents)
    }

    /// Finds the blocks. Tells whether the model has its root, is shallow, and has no more blocks
    /// than it may.
    fn find_blocks(&mut self) -> Result<bool, OutOfMemory>
        requires roles { self.old.roles.items ≡ roles_of self.old.layout.items.now }
        requires extents { AreExtents self.old.layout.items.now self.old.extents.items }
        requires none { self.old.blocks.places.items ≡ [] }
        requires numbered { AreNumbered self.old.layout.items.now self.old.blocks }
        ensures { IfOk result (λ kept. IsFound self.old.layout.items.now kept self.new) }
    {
        if !self.keeps_sizes() {
            return Ok(false);
        }
        self.blocks.add_all(&self.layout, &self.roles)
    }

    /// The rule of library, or of parameter, broken by the block at a place, which shows a word.
    pub fn broken_at(
        &self,
        alloc: Global,
        rule: Rule,
        place: usize,
        word: &[u8],
    ) -> Result<RuleFault, OutOfMemory>
        requires known { IsKnown self.now }
        requires within { place < length self.now.layout.items.now }
        requires counts { is_block (role_of self.now.layout.items.now place) ≡ true }
        ensures { IfOk result (λ fault. fault
            ≡ fault_of rule (path_of self.now.layout.items.now place) (Word word.now)) }
    {
        let path = path_of(alloc, &self.layout, &self.roles, place)?;
        let word = Text::copy(alloc, word)?;
        Ok(rule_fault(rule, path, Shown::Word(word)))
    }

    /// The rule of structure, broken by the first block that breaks it.
    pub fn block_fault(&self, alloc: Global) -> Result<Option<RuleFault>, OutOfMemory>
        requires { IsKnown self.now }
        ensures { IfOk result (λ found. found ≡ option_map
            (λ place. fault_of Rule.Structure (path_of self.now.layout.items.now place) Nothing)
            (find (λ place. not (keeps_structure self.now.layout.items.now place))
            (blocks_of self.now.layout.items.now))) }
    {
        match first_misshapen(alloc, &self.layout, &self.roles, &self.blocks)? {
            None => Ok(None),
            Some(place) => {
                let path = path_of(alloc, &self.layout, &self.roles, place)?;
                Ok(Some(rule_fault(Rule::Structure, path, Shown::Nothing)))
            }
        }
    }
}
