//! Verilog texts: what they are read as, and the text that is written of it.

use crate::shown::put_shown;
use anyhow::{Error, Result};
use fx_io::OpenGate;
use std::alloc::Global;
use std::io::Write;
use std::thread::Threads;
use tests_rows::{Reads, put_bad_line, write_result};
use vl_ast::Module;
use vl_read::{VlSyntax, read};
use vl_write::write;

/// The reader of Verilog texts.
pub struct Verilog;

impl Reads for Verilog {
    fn bad_line(alloc: Global, text: &[u8]) -> Result<u64> {
        match read(alloc, text) {
            Ok(module) => {
                drop(module);
                Ok(0)
            }
            Err(VlSyntax::Syntax { line }) => Ok(line),
            Err(VlSyntax::OutOfMemory) => Err(Error::msg("out of memory")),
        }
    }
}

/// Prints the module of a text, or the line at which it is none.
pub fn put_read<W: Write>(alloc: Global, text: &[u8], out: &mut W) -> Result<()> {
    match read(alloc, text) {
        Ok(module) => {
            let put = put_module(alloc, &module, out);
            drop(module);
            put
        }
        Err(_fault) => put_bad_line::<Verilog, W>(alloc, text, out),
    }
}

fn put_module<W: Write>(alloc: Global, module: &Module, out: &mut W) -> Result<()> {
    let mut shown = String::new(alloc);
    put_shown(&mut shown, module)?;
    write_result(out.write_all(shown.as_bytes()))
}

/// Prints the written text of a text's module, or that line.
pub fn put_written<R: Threads + Sync, W: Write>(
    rt: &R,
    alloc: Global,
    text: &[u8],
    out: &mut W,
) -> Result<()> {
    match read(alloc, text) {
        Ok(module) => {
            let text = write(rt, alloc, &module, &OpenGate);
            drop(module);
            write_result(out.write_all(text?.bytes()))
        }
        Err(_fault) => put_bad_line::<Verilog, W>(alloc, text, out),
    }
}
