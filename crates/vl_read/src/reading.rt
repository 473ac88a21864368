ghost use Rattle.std.specs.Prelude.{◌≡◌, ◌≤◌, [], true, false, length, IfOk, None, option_and_then};
ghost use Rattle.vl_ast.specs.Grammar.{Spells, most_items};
ghost use Rattle.vl_read.specs.declared.designer.Scope.TheVariants.{Alone};
ghost use Rattle.vl_read.specs.Designs.{IsDesignFaultLine, IsNoDesign, SpellsDesign, items_in};
ghost use Rattle.vl_read.specs.inner.Designs.{design_reading, first_sketch, parse_design};
ghost use Rattle.vl_read.specs.inner.DesignerFields.{gathered};
ghost use Rattle.vl_read.specs.inner.Lexemes.{last_lexemes};
ghost use Rattle.vl_read.specs.inner.Plain.{parse};
ghost use Rattle.vl_read.specs.Prefix.{IsRefused, IsVerilogFaultLine, IfSyntax};
ghost use Rattle.vl_read.specs.inner.Scopes.{IsLineIn, IsNoText};
ghost use Rattle.vl_read.specs.inner.ReaderPlaces.{seen};
ghost use Rattle.vl_read.specs.inner.Turns.{IsBeyond, IsWithin, ahead, line_at};

use crate::design::Design;
use crate::designer::{Designer, Scope};
use crate::fault::VlSyntax;
use crate::scan::Mode;
use crate::turns::{lexeme_end, mode_after};
use fx_io::OutOfMemory;
use std::alloc::Global;
use vl_ast::Module;

/// How many items a module has at most that is read (own).
const MOST_ITEMS: usize = 4_000_000;

/// The line at the end of the bytes, counted from 1.
fn line_at(bytes: &[u8]) -> u64
    ensures { result ≡ line_at bytes.now }
{
    1 + bytes.iter().filter(|byte| **byte == b'\n').count() as u64
}

/// Whether a lexeme has begun.
fn is_within(mode: Mode) -> bool
    ensures within { result ≡ true → IsWithin mode }
    ensures beyond { result ≡ false → IsBeyond mode }
{
    matches!(mode, Mode::Word | Mode::Mark)
}

/// What was read of a text, and where the reading is behind it.
struct Reading {
    designer: Designer,
    mode: Mode,
}

/// Reads the lexemes of the bytes.
fn read_lexemes(alloc: Global, bytes: &[u8], scope: Scope) -> Result<Reading, VlSyntax>
    ensures beyond { IfOk result (λ reading. IsBeyond reading.mode) }
    ensures ahead { IfOk result (λ reading. design_reading scope most_items bytes.now
        ≡ ahead (gathered reading.designer) reading.mode [] []) }
    ensures alone { IfOk result (λ reading. scope ≡ Alone → gathered reading.designer
        ≡ record (first_sketch Alone most_items) { parser = seen reading.designer.reader }) }
    ensures stops { IfOk result (λ reading.
        ahead (gathered reading.designer) reading.mode [] [] ≡ None
        → IsLineIn scope bytes.now (line_at bytes.now)) }
    ensures refused { IfSyntax result (λ _. IsNoText scope bytes.now) }
    ensures line { IfSyntax result (λ line. IsLineIn scope bytes.now line) }
{
    let mut designer = Designer::new(alloc, scope, MOST_ITEMS);
    let mut mode = Mode::Between;
    let mut at = 0;
    while at < bytes.len() {
        let Some(next) = mode_after(mode, bytes[at]) else {
            return Err(VlSyntax::Syntax {
                line: line_at(&bytes[..at]),
            });
        };
        if !is_within(next) {
            mode = next;
            at += 1;
            continue;
        }
        let end = lexeme_end(next, bytes, at);
        if !designer.step(&bytes[at..end])? {
            return Err(VlSyntax::Syntax {
                line: line_at(&bytes[..end]),
            });
        }
        mode = Mode::Between;
        at = end;
    }
    Ok(Reading { designer, mode })
}

/// The module at the end of the bytes. `None` where a text may not end so.
fn last_module(designer: Designer, mode: Mode) -> Option<Module>
    requires { IsBeyond mode }
    ensures { result ≡ option_and_then (parse (seen designer.reader)) (last_lexemes mode []) }
{
    match mode {
        Mode::Between | Mode::LineComment => designer.finish_alone(),
        Mode::Word | Mode::Mark | Mode::Slash | Mode::BlockComment | Mode::Star => {
            drop(designer);
            None
        }
    }
}

/// The design at the end of the bytes. `None` where a text may not end so.
fn last_design(designer: Designer, mode: Mode) -> Result<Option<Design>, OutOfMemory>
    requires { IsBeyond mode }
    ensures { IfOk result (λ found. found
        ≡ option_and_then (parse_design (gathered designer)) (last_lexemes mode [])) }
{
    match mode {
        Mode::Between | Mode::LineComment => designer.finish(),
        Mode::Word | Mode::Mark | Mode::Slash | Mode::BlockComment | Mode::Star => {
            drop(designer);
            Ok(None)
        }
    }
}

/// Reads a Verilog text of the subset into its module (IEEE 1364-2005, of which the subset keeps the
/// forms of `vl_ast`'s grammar).
///
/// `VlSyntax::Syntax` has the line at which the bytes stop being the beginning of such a text, counted
/// from 1.
pub fn read(alloc: Global, bytes: &[u8]) -> Result<Module, VlSyntax>
    // The bytes spell the module, which has at most 4,000,000 items.
    ensures found { IfOk result (λ m. Spells bytes.now m) }
    ensures few { IfOk result (λ m. length m.items ≤ most_items) }
    // A fault in the text comes only where they spell no such module.
    ensures refused { IfSyntax result (λ _. IsRefused bytes.now) }
    ensures line { IfSyntax result (λ line. IsVerilogFaultLine bytes.now line) }
{
    let Reading { designer, mode } = match read_lexemes(alloc, bytes, Scope::Alone) {
        Ok(reading) => reading,
        Err(fault) => return Err(fault),
    };
    match last_module(designer, mode) {
        None => Err(VlSyntax::Syntax {
            line: line_at(bytes),
        }),
        Some(module) => Ok(module),
    }
}

/// Reads the text of a design: modules one after another, and in the last of them instances of the
/// others (IEEE 1364-2005, 12.1).
///
/// `VlSyntax::Syntax` has the line at which the bytes stop being the beginning of such a text, counted
/// from 1.
pub fn read_design(alloc: Global, bytes: &[u8]) -> Result<Design, VlSyntax>
    // The bytes spell the design, which has at most 4,000,000 items, instances counted.
    ensures found { IfOk result (λ design. SpellsDesign bytes.now design) }
    ensures few { IfOk result (λ design. items_in design ≤ most_items) }
    // A fault in the text comes only where they spell no such design.
    ensures refused { IfSyntax result (λ _. IsNoDesign bytes.now) }
    ensures line { IfSyntax result (λ line. IsDesignFaultLine bytes.now line) }
{
    let Reading { designer, mode } = match read_lexemes(alloc, bytes, Scope::Together) {
        Ok(reading) => reading,
        Err(fault) => return Err(fault),
    };
    match last_design(designer, mode) {
        Err(OutOfMemory) => Err(VlSyntax::OutOfMemory),
        Ok(None) => Err(VlSyntax::Syntax {
            line: line_at(bytes),
        }),
        Ok(Some(design)) => Ok(design),
    }
}
