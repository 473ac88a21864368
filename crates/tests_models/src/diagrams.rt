//! Models and flat diagrams, and what is found of them.
ghost use Rattle.std.specs.Prelude.{◌≡◌, ◌≤◌, [], length, slice_index_or};
ghost use Rattle.dg_model.specs.Dimension.{KeepsDimensions};
ghost use Rattle.dg_model.specs.Periods.{periods_of};
ghost use Rattle.dg_model.specs.Sound.{IsSound};
ghost use Rattle.dg_model.specs.Widths.{widths_of};
ghost use Rattle.dg_model.specs.Wired.{IsWired};

use crate::nested::put_nested;
use crate::told::put_fault;
use anyhow::{Error, Result};
use dg_flat::flatten;
use dg_model::{Diagram, Nested, Path, PortWidths};
use dg_rates::rates;
use dg_sort::order;
use dg_types::{types, widths};
use fx_type::FxType;
use mdl_build::build;
use mdl_text::{Tree, read};
use std::alloc::Global;
use std::io::Write;
use tests_rows::{Row, put_debug, write_result};

/// What is asked of a model.
#[derive(Clone, Copy)]
pub enum Asked {
    Build,
    Nested,
    Flat,
    Widths,
    Types,
    Rates,
    Order,
}

/// Tells what is asked of a text's model, or the rule that it breaks.
pub fn model<W: Write>(alloc: Global, asked: Asked, text: &[u8], out: &mut W) -> Result<()> {
    match read(alloc, text) {
        Ok(tree) => put_built(alloc, asked, &tree, out),
        Err(_fault) => Err(Error::msg("no MDL text")),
    }
}

/// Tells that a model of so many blocks is kept.
pub fn many<W: Write>(alloc: Global, row: &mut Row<'_>, out: &mut W) -> Result<()> {
    let count = row.number()?;
    let mut text = String::new(alloc);
    put_blocks(alloc, &mut text, count)?;
    model(alloc, Asked::Build, text.as_bytes(), out)
}

fn put_blocks(alloc: Global, text: &mut String, count: u32) -> Result<()> {
    text.push_str("Model {\nSystem {\n")?;
    for number in 0..count {
        let block = format!(in alloc; "Block {{\nBlockType Ground\nName b{number}\n}}\n")?;
        text.push_str(&block)?;
    }
    text.push_str("}\n}\n")?;
    Ok(())
}

fn put_built<W: Write>(alloc: Global, asked: Asked, tree: &Tree, out: &mut W) -> Result<()> {
    match build(alloc, tree) {
        Ok(nested) => {
            let put = match asked {
                Asked::Build => write_result(out.write_all(b"kept\n")),
                Asked::Nested => put_nested(&nested, out),
                _ => put_flattened(alloc, asked, &nested, out),
            };
            drop(nested);
            put
        }
        Err(fault) => put_fault(alloc, fault, &[], out),
    }
}

fn put_flattened<W: Write>(alloc: Global, asked: Asked, nested: &Nested, out: &mut W) -> Result<()>
    requires { IsSound nested.now }
{
    match flatten(alloc, nested) {
        Ok(diagram) => {
            let put = match asked {
                Asked::Flat => put_flat(alloc, &diagram, out),
                Asked::Widths => put_widths(alloc, &diagram, out),
                Asked::Types => put_types(alloc, &diagram, out),
                Asked::Rates => put_rates(alloc, &diagram, out),
                _ => put_order(alloc, &diagram, out),
            };
            drop(diagram);
            put
        }
        Err(fault) => put_fault(alloc, fault, &[], out),
    }
}

fn put_flat<W: Write>(alloc: Global, diagram: &Diagram, out: &mut W) -> Result<()> {
    for block in diagram.blocks.as_slice() {
        put_path(alloc, &block.path, out)?;
        match block.enable {
            Some(enable) => writeln!(out, " enable {enable}")?,
            None => out.write_all(b"\n")?,
        }
    }
    for edge in diagram.edges.as_slice() {
        put_debug(edge, out)?;
    }
    Ok(())
}

fn put_path<W: Write>(alloc: Global, path: &Path, out: &mut W) -> Result<()> {
    let path = path.text(alloc)?;
    write_result(out.write_all(path.bytes()))
}

fn put_widths<W: Write>(alloc: Global, diagram: &Diagram, out: &mut W) -> Result<()>
    requires { IsWired diagram.now }
{
    match widths(alloc, diagram) {
        Ok(widths) => put_each_width(diagram, &widths, out),
        Err(fault) => put_fault(alloc, fault, diagram.blocks.as_slice(), out),
    }
}

/// Tells of each block the widths at its output ports.
fn put_each_width<W: Write>(diagram: &Diagram, widths: &PortWidths, out: &mut W) -> Result<()>
    requires wired { IsWired diagram.now }
    requires dimensions { KeepsDimensions diagram.now }
    requires widths { widths.now ≡ widths_of diagram.now }
{
    let blocks = diagram.blocks.as_slice();
    for place in 0..blocks.len() {
        put_outputs(widths, place as u32, blocks[place].outputs, out)?;
    }
    Ok(())
}

fn put_outputs<W: Write>(widths: &PortWidths, block: u32, outputs: u32, out: &mut W) -> Result<()>
    requires { outputs ≤ length (slice_index_or widths.now block []) }
{
    for port in 0..outputs {
        write!(out, "{} ", widths.at(block, port + 1))?;
    }
    write_result(out.write_all(b"\n"))
}

/// Tells of each block the type of its outputs and that of its coefficients.
fn put_types<W: Write>(alloc: Global, diagram: &Diagram, out: &mut W) -> Result<()>
    requires { IsWired diagram.now }
{
    match widths(alloc, diagram) {
        Ok(widths) => put_typed(alloc, diagram, &widths, out),
        Err(fault) => put_fault(alloc, fault, diagram.blocks.as_slice(), out),
    }
}

fn put_typed<W: Write>(
    alloc: Global,
    diagram: &Diagram,
    widths: &PortWidths,
    out: &mut W,
) -> Result<()>
    requires { IsWired diagram.now }
{
    match types(alloc, diagram, widths) {
        Ok(types) => put_pairs(types.results.as_slice(), types.params.as_slice(), out),
        Err(fault) => put_fault(alloc, fault, diagram.blocks.as_slice(), out),
    }
}

fn put_pairs<W: Write>(results: &[FxType], params: &[FxType], out: &mut W) -> Result<()> {
    for (result, param) in results.iter().zip(params) {
        put_type(*result, out)?;
        out.write_all(b", ")?;
        put_type(*param, out)?;
        out.write_all(b"\n")?;
    }
    Ok(())
}

fn put_type<W: Write>(kind: FxType, out: &mut W) -> Result<()> {
    match kind {
        FxType::Logical => write_result(out.write_all(b"L")),
        FxType::Num {
            signed,
            width,
            frac,
        } => {
            let sign = if signed { 's' } else { 'u' };
            write_result(write!(out, "{sign} {width} {frac}"))
        }
    }
}

/// Tells of each block its period, `inf` of one that never changes.
fn put_rates<W: Write>(alloc: Global, diagram: &Diagram, out: &mut W) -> Result<()>
    requires { IsWired diagram.now }
{
    match rates(alloc, diagram) {
        Ok(periods) => put_periods(periods.as_slice(), out),
        Err(fault) => put_fault(alloc, fault, diagram.blocks.as_slice(), out),
    }
}

fn put_periods<W: Write>(periods: &[Option<u32>], out: &mut W) -> Result<()> {
    for period in periods {
        match period {
            Some(period) => write!(out, "{period} ")?,
            None => out.write_all(b"inf ")?,
        }
    }
    write_result(out.write_all(b"\n"))
}

/// Tells how many blocks stand in order.
fn put_order<W: Write>(alloc: Global, diagram: &Diagram, out: &mut W) -> Result<()>
    requires { IsWired diagram.now }
{
    match rates(alloc, diagram) {
        Ok(periods) => put_ordered(alloc, diagram, periods.as_slice(), out),
        Err(fault) => put_fault(alloc, fault, diagram.blocks.as_slice(), out),
    }
}

fn put_ordered<W: Write>(
    alloc: Global,
    diagram: &Diagram,
    periods: &[Option<u32>],
    out: &mut W,
) -> Result<()>
    requires wired { IsWired diagram.now }
    requires periods { periods.now ≡ periods_of diagram.now }
{
    match order(alloc, diagram, periods) {
        Ok(order) => put_count(order.as_slice().len(), out),
        Err(fault) => put_fault(alloc, fault, diagram.blocks.as_slice(), out),
    }
}

fn put_count<W: Write>(count: usize, out: &mut W) -> Result<()> {
    write_result(writeln!(out, "{count} in order"))
}
