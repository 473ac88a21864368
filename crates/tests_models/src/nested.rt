//! Models before their subsystems are taken apart.

use anyhow::Result;
use dg_model::{Block, Kind, Nested, NestedBlock, Part};
use std::io::Write;
use tests_rows::{put_debug, write_result};

/// Tells the blocks and lines of a model.
pub fn put_nested<W: Write>(nested: &Nested, out: &mut W) -> Result<()> {
    for block in nested.blocks.as_slice() {
        put_block(block, out)?;
    }
    for line in nested.lines.as_slice() {
        put_debug(line, out)?;
    }
    Ok(())
}

/// Tells the name of a block and what it is.
fn put_block<W: Write>(block: &NestedBlock, out: &mut W) -> Result<()> {
    out.write_all(block.name.bytes())?;
    match &block.part {
        Part::Plain(block) => put_plain(block, out),
        Part::In(_block, number) => write_result(write!(out, " in {number}")),
        Part::Out(_block, number) => write_result(write!(out, " out {number}")),
        Part::SubSystem => write_result(out.write_all(b" subsystem")),
        Part::Enable { reset } => write_result(write!(out, " enable {reset}")),
    }?;
    write_result(out.write_all(b"\n"))
}

/// Tells the period of a block, and of a Delay its length and how many initial values it has.
fn put_plain<W: Write>(block: &Block, out: &mut W) -> Result<()> {
    let period = block.period;
    write!(out, " {period:?}")?;
    if let Kind::Delay {
        length,
        initial,
        ..
    } = &block.kind
    {
        let count = initial.as_slice().len();
        write!(out, " length {length} initial {count}")?;
    }
    Ok(())
}
