//! Modules of wires that workers write.

use crate::meeting::Meeting;
use anyhow::Result;
use fx_io::{OpenGate, Text};
use std::alloc::Global;
use std::fmt::Write;
use std::io;
use std::thread::Threads;
use tests_rows::{Row, write_result};
use vl_ast::{Attrs, ModItem, ModItems, Module, Ports};
use vl_write::{spelling_parts, write};

/// How often a module is written.
const TEXTS: u32 = 20;

/// A module of so many wires of one bit, called `w0`, `w1` and on.
fn module_of(alloc: Global, count: u32) -> Result<Module> {
    let name = Text::copy(alloc, b"m")?;
    let mut items = ModItems::new(alloc);
    for number in 0..count {
        items.push(wire_of(alloc, number)?)?;
    }
    Ok(Module {
        name,
        attrs: Attrs::new(alloc),
        ports: Ports::new(alloc),
        items,
    })
}

fn wire_of(alloc: Global, number: u32) -> Result<ModItem> {
    let name = format!(in alloc; "w{number}")?;
    Ok(ModItem::Wire {
        signed: false,
        width: 1,
        name: Text::copy(alloc, name.as_bytes())?,
    })
}

/// Puts the text of such a module behind another, line by line.
fn put_text(text: &mut String, count: u32) -> Result<()> {
    text.push_str("module m (\n\n);\n")?;
    for number in 0..count {
        writeln!(text, "wire w{number};")?;
    }
    text.push_str("endmodule\n")?;
    Ok(())
}

/// How many workers meet while a module of so many wires is written.
fn meet<R: Threads + Sync>(rt: &R, alloc: Global, count: u32) -> Result<u64> {
    let module = module_of(alloc, count)?;
    let meeting = Meeting::new(u64::from(count.saturating_sub(1)));
    let _text = write(rt, alloc, &module, &meeting)?;
    Ok(meeting.met_count())
}

/// The bytes of parts, one after another.
fn whole_text(alloc: Global, parts: &[Vec<u8>]) -> Result<Vec<u8>> {
    let mut text = Vec::new(alloc);
    for part in parts {
        text.extend_from_slice(part.as_slice())?;
    }
    Ok(text)
}

/// How many texts of a module of so many wires, one after another, are the expected one, whole and in
/// parts: up to 20.
fn texts_as_expected<R: Threads + Sync>(rt: &R, alloc: Global, count: u32) -> Result<u32> {
    let module = module_of(alloc, count)?;
    let mut expected = String::new(alloc);
    put_text(&mut expected, count)?;
    for texts in 0..TEXTS {
        if !is_written(rt, alloc, &module, expected.as_bytes())? {
            return Ok(texts);
        }
    }
    Ok(TEXTS)
}

/// Whether a module is written as expected, whole and in parts.
fn is_written<R: Threads + Sync>(
    rt: &R,
    alloc: Global,
    module: &Module,
    expected: &[u8],
) -> Result<bool> {
    let text = write(rt, alloc, module, &OpenGate)?;
    let parts = spelling_parts(rt, alloc, module, &OpenGate)?;
    let spelled = whole_text(alloc, parts.as_slice())?;
    Ok(text.bytes() == expected && spelled.as_slice() == expected)
}

/// Writes how many workers meet while a module is written, or else how many texts are the expected one.
pub fn put_wires<R: Threads + Sync, W: io::Write>(
    rt: &R,
    alloc: Global,
    row: &mut Row<'_>,
    meets: bool,
    out: &mut W,
) -> Result<()> {
    let count = row.number()?;
    if meets {
        let met = meet(rt, alloc, count)?;
        return write_result(writeln!(out, "{count} wires, {met} workers met"));
    }
    let texts = texts_as_expected(rt, alloc, count)?;
    write_result(writeln!(out, "{count} wires, {texts} texts as expected"))
}
