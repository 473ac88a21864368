//! The blocks and lines of a tree, or the first broken rule.
ghost use Rattle.std.specs.Prelude.{◌≡◌, true, [], None, IfOk, IfErr, OnOk};
ghost use Rattle.std.specs.List.{AllZip};
ghost use Rattle.dg_model.specs.Faults.{IsRefusal};
ghost use Rattle.dg_model.specs.Sound.{IsSound};
ghost use Rattle.mdl_build.specs.Nested.{IsDrawnAt, IsNestedOf};
ghost use Rattle.mdl_build.specs.Roles.{blocks_of};
ghost use Rattle.mdl_build.specs.Rules.{structure_fault, library_fault, IsWrongFirst, Breaks};
ghost use Rattle.mdl_build.specs.inner.Sketch.{AreDrawn};
ghost use Rattle.mdl_build.specs.inner.ItemFacts.{IsKnown, keeps_sizes};
ghost use Rattle.mdl_build.specs.inner.Makers.{IsMaker, extents_of, items_of};

use crate::expanding::{DrawnBlocks, put_expanded};
use crate::extents::starts;
use crate::known::{Known, broken_model, known_of};
use crate::lines::put_lines;
use crate::making::{Maker, text_or_empty};
use crate::structure::{first_unknown, type_at};
use dg_model::{CheckFault, Nested, NestedBlocks, NestedLine, NestedLines, Rule, RuleFault};
use fx_io::OutOfMemory;
use mdl_text::Tree;
use std::alloc::Global;

/// The rule of library, broken by the first block of an unknown type.
fn library_fault(alloc: Global, known: &Known) -> Result<Option<RuleFault>, OutOfMemory>
    requires { IsKnown known.now }
    ensures { IfOk result (λ found. found ≡ library_fault known.now.layout.items.now) }
{
    let Some(place) = first_unknown(&known.layout, known.blocks.places()) else {
        return Ok(None);
    };
    let word = text_or_empty(&known.layout, place, b"BlockType");
    let fault = known.broken_at(alloc, Rule::Library, place, word)?;
    Ok(Some(fault))
}

/// Puts the blocks of a tree that keeps the rules of structure and of library.
fn put_blocks(alloc: Global, maker: &Maker, blocks: &mut DrawnBlocks) -> Result<(), CheckFault>
    requires maker { IsMaker maker.now }
    requires structured { structure_fault (extents_of maker.now) (items_of maker.now) ≡ None }
    requires known { library_fault (items_of maker.now) ≡ None }
    requires none { blocks.old ≡ [] }
    ensures ok { OnOk result
        (AllZip (IsDrawnAt (items_of maker.now)) (blocks_of (items_of maker.now)) blocks.new) }
    ensures err { IfErr result (IsRefusal (IsWrongFirst (items_of maker.now))) }
{
    for place in maker.known.blocks.places() {
        let Some(block_type) = type_at(&maker.known.layout, *place) else {
            unreachable!()
        };
        let block = maker.block(alloc, *place, block_type)?;
        blocks.push(block)?;
    }
    Ok(())
}

/// Puts the blocks and lines of a tree whose sizes are kept, as they are drawn.
fn put_tree(
    alloc: Global,
    known: &Known,
    blocks: &mut DrawnBlocks,
    lines: &mut NestedLines,
) -> Result<(), CheckFault>
    requires known { IsKnown known.now }
    requires sizes { keeps_sizes known.now.extents.items known.now.layout.items.now ≡ true }
    requires no_blocks { blocks.old ≡ [] }
    requires no_lines { lines.old ≡ [] }
    ensures ok { OnOk result
        (AreDrawn known.now.layout.items.now known.now.extents.items blocks.new lines.new) }
    ensures err { IfErr result
        (IsRefusal (Breaks (record { items = known.now.layout.items.now }))) }
{
    if !put_lines(alloc, lines, &known.layout, &known.roles, &known.blocks)? {
        return Err(broken_model());
    }
    if let Some(misshapen) = known.block_fault(alloc)? {
        return Err(CheckFault::Broken(misshapen));
    }
    if let Some(unknown) = library_fault(alloc, known)? {
        return Err(CheckFault::Broken(unknown));
    }
    let maker = Maker::new(alloc, known)?;
    let put = put_blocks(alloc, &maker, blocks);
    drop(maker);
    put
}

/// Puts the blocks and lines of a tree by those that are drawn.
fn put_by_drawn(
    alloc: Global,
    known: &Known,
    nested: &mut Nested,
    blocks: DrawnBlocks,
    lines: &[NestedLine],
) -> Result<(), OutOfMemory>
    requires known { IsKnown known.now }
    requires drawn { AreDrawn known.now.layout.items.now known.now.extents.items blocks
        lines.now }
    requires no_blocks { nested.old.blocks ≡ [] }
    requires no_lines { nested.old.lines ≡ [] }
    ensures { OnOk result
        (IsNestedOf (record { items = known.now.layout.items.now }) nested.new) }
{
    mdl_values::values_are_one();
    let numbers = starts(alloc, &known.extents)?;
    put_expanded(alloc, nested, &numbers, blocks, lines)?;
    Ok(())
}

/// Puts the blocks and lines of a tree whose sizes are kept.
fn put_nested(alloc: Global, known: &Known, nested: &mut Nested) -> Result<(), CheckFault>
    requires known { IsKnown known.now }
    requires sizes { keeps_sizes known.now.extents.items known.now.layout.items.now ≡ true }
    requires no_blocks { nested.old.blocks ≡ [] }
    requires no_lines { nested.old.lines ≡ [] }
    ensures ok { OnOk result
        (IsNestedOf (record { items = known.now.layout.items.now }) nested.new) }
    ensures err { IfErr result
        (IsRefusal (Breaks (record { items = known.now.layout.items.now }))) }
{
    let mut blocks = DrawnBlocks::new(alloc);
    let mut lines = NestedLines::new(alloc);
    if let Err(fault) = put_tree(alloc, known, &mut blocks, &mut lines) {
        drop(blocks);
        return Err(fault);
    }
    put_by_drawn(alloc, known, nested, blocks, lines.as_slice())?;
    Ok(())
}

/// The blocks and lines of a tree whose sizes are kept.
fn nested_of(alloc: Global, known: &Known) -> Result<Nested, CheckFault>
    requires known { IsKnown known.now }
    requires sizes { keeps_sizes known.now.extents.items known.now.layout.items.now ≡ true }
    ensures ok { IfOk result (IsNestedOf (record { items = known.now.layout.items.now })) }
    ensures err { IfErr result
        (IsRefusal (Breaks (record { items = known.now.layout.items.now }))) }
{
    let mut nested = Nested {
        blocks: NestedBlocks::new(alloc),
        lines: NestedLines::new(alloc),
    };
    match put_nested(alloc, known, &mut nested) {
        Ok(()) => Ok(nested),
        Err(fault) => {
            discard(nested);
            Err(fault)
        }
    }
}

/// Frees blocks and lines, so that crates above needn't prove how.
pub fn discard(nested: Nested) {
    drop(nested);
}

/// The blocks and lines of a tree. Source: Simulink reference, model files.
///
/// # Errors
/// Broken exactly where the rule of structure, of library or of parameter is: the first of them, at its
/// first place. Or want of memory.
pub fn build(alloc: Global, tree: &Tree) -> Result<Nested, CheckFault>
    ensures ok { IfOk result (λ nested. IsNestedOf tree.now nested × IsSound nested) }
    ensures err { IfErr result (IsRefusal (Breaks tree.now)) }
{
    mdl_values::values_are_one();
    fir_block::are_sound_blocks();
    fir_block::names_differ();
    fir_block::blocks_are_counted();
    let Some(known) = known_of(alloc, tree.items.as_slice())? else {
        return Err(broken_model());
    };
    let nested = nested_of(alloc, &known);
    drop(known);
    nested
}
