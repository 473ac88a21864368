ghost use Rattle.std.specs.Prelude.{◌≡◌, ◌<◌, ℕ, List, IfOk, OnOk, length};
ghost use Rattle.dg_tables.specs.Listing.{AreBlocksOf};
ghost use Rattle.hw_names.specs.Names.{AreNames, AreStreamNames, Given, wanted_names};
ghost use Rattle.hw_names.specs.Taken.{AreTaken};
ghost use Rattle.hw_names.specs.inner.Sides.{AddsName, AddsNames, elements_on, name_wanted, width_on};

use crate::columns::columns_of;
use crate::names::Names;
use dg_model::{Block, Checked};
use dg_tables::{input_blocks, output_blocks};
use fx_io::{OutOfMemory, Sizes, Texts};
use hw_latency::block_at;
use hw_sched::{own_width, width_into};
use std::alloc::Global;

/// The two sides of a module at which root ports stand.
#[derive(Clone, Copy)]
enum Side {
    Inputs,
    Outputs,
}

/// The width of the signal of a root port on this side.
fn width_of(checked: &Checked, side: Side, block: u32) -> u32
    requires { block < length checked.now.diagram.blocks }
    ensures { result ≡ width_on side checked.now.diagram block }
{
    match side {
        Side::Inputs => own_width(checked, block),
        Side::Outputs => width_into(checked, block),
    }
}

/// The blocks of the root elements on this side, one for each.
fn blocks_of(alloc: Global, checked: &Checked, side: Side) -> Result<Sizes, OutOfMemory>
    ensures { IfOk result (AreBlocksOf (elements_on side checked.now.diagram)) }
{
    match side {
        Side::Inputs => input_blocks(alloc, checked),
        Side::Outputs => output_blocks(alloc, checked),
    }
}

/// Adds a name for an element of the signal of a root port, which has this width.
fn put_name(
    alloc: Global,
    names: &mut Names,
    texts: &mut Texts,
    block: &Block,
    width: u32,
    element: u32,
) -> Result<(), OutOfMemory>
    ensures { OnOk result (AddsName (name_wanted block.now.path width element)
        names.old names.new texts.old texts.new) }
{
    let path = block.path.text(alloc)?;
    let name = names.port(alloc, path.bytes(), width, element)?;
    texts.push(name)
}

/// Adds a name for each root element on this side, whose blocks these are.
fn put_names(
    alloc: Global,
    names: &mut Names,
    texts: &mut Texts,
    checked: &Checked,
    side: Side,
    blocks: &[u32],
) -> Result<(), OutOfMemory>
    requires { AreBlocksOf (elements_on side checked.now.diagram) blocks.now }
    ensures { OnOk result (AddsNames checked.now.diagram side names.old names.new
        texts.old texts.new (length blocks.now)) }
{
    checked.keeps_rules();
    dg_model::root_elements_are_listed();
    let columns = columns_of(alloc, checked.diagram().blocks.as_slice().len(), blocks)?;
    let firsts = columns.as_slice();
    for column in 0..blocks.len() {
        let Ok(number) = u32::try_from(column) else {
            // word: the place of a root element, of 32 bits
            return Err(OutOfMemory);
        };
        let block = blocks[column];
        let element = number - firsts[block as usize];
        let width = width_of(checked, side, block);
        put_name(
            alloc,
            names,
            texts,
            block_at(checked, block),
            width,
            element,
        )?;
    }
    Ok(())
}

/// Adds the same for all root elements on this side.
fn put_side(
    alloc: Global,
    names: &mut Names,
    texts: &mut Texts,
    checked: &Checked,
    side: Side,
) -> Result<(), OutOfMemory>
    ensures { OnOk result (AddsNames checked.now.diagram side names.old names.new
        texts.old texts.new (length (elements_on side checked.now.diagram))) }
{
    let blocks = blocks_of(alloc, checked, side)?;
    put_names(alloc, names, texts, checked, side, blocks.as_slice())
}

/// A name for each root element, beside those that are taken.
fn names_beside(alloc: Global, names: &mut Names, checked: &Checked) -> Result<Texts, OutOfMemory>
    ensures { IfOk result (λ texts. (list : List (List ℕ)) → AreTaken names.old list
        → Given list (wanted_names checked.now.diagram) texts) }
{
    let mut texts = Texts::new(alloc);
    put_side(alloc, names, &mut texts, checked, Side::Inputs)?;
    put_side(alloc, names, &mut texts, checked, Side::Outputs)?;
    Ok(texts)
}

/// The names of the ports of a checked diagram: those of its root inputs' elements, then those of its
/// root outputs'; there is one for each element.
///
/// # Errors
/// Want of memory.
pub fn port_names(alloc: Global, checked: &Checked) -> Result<Texts, OutOfMemory>
    ensures names { IfOk result (AreNames checked.now.diagram) }
    ensures size { IfOk result (λ names.
        length names ≡ length (wanted_names checked.now.diagram)) }
{
    names_beside(alloc, &mut Names::new(alloc)?, checked)
}

/// The names of the same ports in a module with valid and ready.
///
/// # Errors
/// Want of memory.
pub fn stream_names(alloc: Global, checked: &Checked) -> Result<Texts, OutOfMemory>
    ensures names { IfOk result (AreStreamNames checked.now.diagram) }
    ensures size { IfOk result (λ names.
        length names ≡ length (wanted_names checked.now.diagram)) }
{
    names_beside(alloc, &mut Names::of_stream(alloc)?, checked)
}

/// Frees names of ports, so that crates above needn't prove how.
pub fn discard(names: Texts) {
    drop(names);
}
