//! The elements of the root inputs and outputs, in the order in which rows have their numbers.
ghost use Rattle.std.specs.Prelude.{◌≡◌, ◌++◌, ◌≤◌, ℕ, map, filter_map, count_by, is_some, length, position, slice_get, IfOk, OnOk, Some};
ghost use Rattle.math_list.specs.Numbers.{numbers_from};
ghost use Rattle.dg_model.specs.Attributes.{attributes_of};
ghost use Rattle.dg_model.specs.Library.{row_of};
ghost use Rattle.dg_model.specs.declared.diagram.Block.{Block};
ghost use Rattle.dg_model.specs.Limits.{most_blocks};
ghost use Rattle.dg_model.specs.Wired.{AreNumbered, root_output};
ghost use Rattle.dg_model.specs.RootElements.{number_in, has_number, elements_of_port, root_elements, root_inputs, root_outputs};
ghost use Rattle.dg_tables.specs.inner.Ports.{ArePortsTo, FindsWidths, IsNumberOf, IsPortNumber, port_put, root_on, width_on};
ghost use Rattle.dg_tables.specs.Roots.{root_at, roots_of};
ghost use Rattle.dg_tables.specs.Finding.{AreLines};

use crate::reading::{Starts, width_of_input, width_of_output};
use dg_model::{Block, Checked, Kind};
use fx_io::{OutOfMemory, Sequence};
use std::alloc::Global;

/// An element of a root port: the number of the port, its block and the element's place.
#[derive(Clone, Copy)]
pub struct Root {
    pub number: u32,
    pub block: u32,
    pub element: u32,
}

pub type Roots = Sequence<Root>;

/// Whether a port of the root is an input or an output, which is as wide as the line into it.
#[derive(Clone, Copy)]
enum Side<'a> {
    Inputs,
    Outputs(&'a Starts),
}

/// The number of a root output port.
pub fn output_number(kind: &Kind) -> Option<u32>
    ensures { result ≡ root_output (row_of kind.now).place.role }
{
    kind.row().role.output_number()
}

/// The number of a root port of a side.
fn number_on<'a>(side: Side<'a>, kind: &Kind) -> Option<u32>
    ensures { result ≡ root_on side.entry (row_of kind.now).place.role }
{
    match side {
        Side::Inputs => kind.row().role.input_number(),
        Side::Outputs(_) => output_number(kind),
    }
}

/// How many root ports of a side there are.
fn count_on<'a>(side: Side<'a>, blocks: &[Block]) -> usize
    ensures { result ≡ count_by (λ block. is_some (number_in (root_on side.entry) block))
        blocks.now }
{
    let mut count: usize = 0;
    for block in blocks {
        if number_on(side, &block.kind).is_some() {
            count += 1;
        }
    }
    count
}

/// Writes down the block of a port at its number, from 1.
fn put_number(ports: &mut Vec<u32>, number: Option<u32>, block: u32)
    requires { IsNumberOf (length ports.old.items) number }
    ensures { ports.new.items ≡ port_put ports.old.items number block }
{
    if let Some(number) = number {
        ports[(number - 1) as usize] = block;
    }
}

/// The blocks of the root ports of a side by their numbers, from 1.
fn ports_on<'a>(alloc: Global, side: Side<'a>, blocks: &[Block]) -> Result<Vec<u32>, OutOfMemory>
    requires ports { AreNumbered (filter_map (number_in (root_on side)) blocks.now) }
    requires few { length blocks.now ≤ most_blocks }
    ensures { IfOk result (λ ports.
        ArePortsTo (root_on side.entry) blocks.now (length blocks.now) ports.items) }
{
    let mut ports: Vec<u32> = vec![in alloc; 0; count_on(side, blocks)]?;
    for (i, block) in blocks.iter().enumerate() {
        put_number(&mut ports, number_on(side, &block.kind), i as u32);
    }
    Ok(ports)
}

/// Puts the elements of a port behind the others.
fn put_port(roots: &mut Roots, number: u32, block: u32, width: u32) -> Result<(), OutOfMemory>
    ensures { OnOk result (roots.new
        ≡ roots.old ++ map (root_at number block) (numbers_from 0 width)) }
{
    for element in 0..width {
        roots.push(Root {
            number,
            block,
            element,
        })?;
    }
    Ok(())
}

/// The width of a block that is a root port of a side.
fn width_on<'a>(checked: &Checked, side: Side<'a>, block: u32) -> u32
    requires widths { FindsWidths checked.now.diagram side }
    requires port { (b : Block) × (number : ℕ) × (slice_get checked.now.diagram.blocks block
        ≡ Some b) × (number_in (root_on side) b ≡ Some number) }
    ensures { result ≡ width_on checked.now.diagram (attributes_of checked.now.diagram) side.entry
        block }
{
    checked.keeps_rules();
    match side {
        Side::Inputs => width_of_output(checked, block, 1),
        Side::Outputs(starts) => width_of_input(checked, starts, block, 1),
    }
}

/// Puts the elements of the root port of a number behind the others.
fn put_port_on<'a>(
    roots: &mut Roots,
    checked: &Checked,
    side: Side<'a>,
    ports: &[u32],
    number: u32,
) -> Result<(), OutOfMemory>
    requires widths { FindsWidths checked.now.diagram side }
    requires ports { ArePortsTo (root_on side) checked.now.diagram.blocks
        (length checked.now.diagram.blocks) ports.now }
    requires number { IsPortNumber (root_on side) checked.now.diagram.blocks number }
    ensures { OnOk result (roots.new ≡ roots.old ++ roots_of (elements_of_port
        (attributes_of checked.now.diagram)
        (width_on checked.now.diagram (attributes_of checked.now.diagram) side.entry) number
        (position (has_number (root_on side.entry) number) checked.now.diagram.blocks))) }
{
    checked.keeps_rules();
    let block = ports[(number - 1) as usize];
    let width = width_on(checked, side, block);
    put_port(roots, number, block, width)
}

/// The elements of the root ports of a side.
fn roots_on<'a>(alloc: Global, checked: &Checked, side: Side<'a>) -> Result<Roots, OutOfMemory>
    requires { FindsWidths checked.now.diagram side }
    ensures { IfOk result (λ roots. roots ≡ roots_of (root_elements (root_on side.entry)
        (width_on checked.now.diagram (attributes_of checked.now.diagram) side.entry)
        checked.now.diagram (attributes_of checked.now.diagram))) }
{
    checked.keeps_rules();
    let blocks = checked.diagram().blocks.as_slice();
    let ports = ports_on(alloc, side, blocks)?;
    let mut roots = Roots::new(alloc);
    for i in 0..ports.len() as u32 {
        put_port_on(&mut roots, checked, side, ports.as_slice(), i + 1)?;
    }
    Ok(roots)
}

/// The elements of the root inputs.
pub fn input_roots(alloc: Global, checked: &Checked) -> Result<Roots, OutOfMemory>
    ensures { IfOk result (λ roots. roots ≡ roots_of
        (root_inputs checked.now.diagram (attributes_of checked.now.diagram))) }
{
    roots_on(alloc, checked, Side::Inputs)
}

/// The elements of the root outputs.
pub fn output_roots(alloc: Global, checked: &Checked, starts: &Starts) -> Result<Roots, OutOfMemory>
    requires { AreLines checked.now.diagram starts.now.lines.items }
    ensures { IfOk result (λ roots. roots ≡ roots_of
        (root_outputs checked.now.diagram (attributes_of checked.now.diagram))) }
{
    roots_on(alloc, checked, Side::Outputs(starts))
}
