//! MDL texts as trees.

use anyhow::{Error, Result};
use mdl_text::{Item, MdlFault, Value, read};
use std::alloc::Global;
use std::io::Write;
use tests_rows::{Reads, put_bad_line, put_escaped, write_result};

/// The reader of MDL texts.
pub struct Mdl;

impl Reads for Mdl {
    fn bad_line(alloc: Global, text: &[u8]) -> Result<u64> {
        match read(alloc, text) {
            Ok(_tree) => Ok(0),
            Err(MdlFault::Syntax { line }) => Ok(line),
            Err(MdlFault::OutOfMemory) => Err(Error::msg("out of memory")),
        }
    }
}

/// Tells the items of a text, or the line at which it is none.
pub fn tree<W: Write>(alloc: Global, text: &[u8], out: &mut W) -> Result<()> {
    match read(alloc, text) {
        Ok(tree) => put_items(tree.items.as_slice(), out),
        Err(_fault) => put_bad_line::<Mdl, W>(alloc, text, out),
    }
}

fn put_items<W: Write>(items: &[Item], out: &mut W) -> Result<()> {
    for item in items {
        put_item(item, out)?;
    }
    Ok(())
}

fn put_item<W: Write>(item: &Item, out: &mut W) -> Result<()> {
    for _ in 0..item.depth {
        out.write_all(b".")?;
    }
    out.write_all(item.name.bytes())?;
    let (sign, content) = match &item.value {
        Value::Section => (b'{', b"".as_slice()),
        Value::Bare(content) => (b':', content.bytes()),
        Value::List(content) => (b'=', content.bytes()),
        Value::Quoted(content) => (b'"', content.bytes()),
    };
    out.write_all(&[sign])?;
    put_escaped(out, content)?;
    write_result(out.write_all(b"|\n"))
}
