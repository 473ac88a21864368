ghost use Rattle.std.specs.Prelude.{◌≡◌, ℕ, List, [], ◌∷◌, ◌++◌, IfOk, MatchOption};
ghost use Rattle.fx_io.specs.FaultLine.{newline, IsOneLine};
ghost use Rattle.mdl_text.specs.Stands.{Stands};
ghost use Rattle.mdl_text.specs.Prefix.{IsMdlFaultLine, IfSyntax};
ghost use Rattle.mdl_text.specs.inner.Plain.{run, IsBounded};

use crate::fault::MdlFault;
use crate::reader::Reader;
use crate::tree::{Items, Tree};
use fx_io::OutOfMemory;
use memchr::memchr;
use std::alloc::Global;

/// Reads an MDL text into its tree (own, after the files that Simulink writes).
///
/// `MdlFault::Syntax` has the line at which the bytes stop being the beginning of an MDL text,
/// counted from 1.
pub fn read(alloc: Global, bytes: &[u8]) -> Result<Tree, MdlFault>
    // The tree is the one that the bytes stand for.
    ensures found { IfOk result (λ tree. Stands bytes.now tree) }
    // A fault in the text comes only where the bytes stand for no tree.
    ensures refused { IfSyntax result (λ _. (tree : Tree) → Stands bytes.now tree → ⊥) }
    ensures line { IfSyntax result (λ line. IsMdlFaultLine bytes.now line) }
{
    let mut reader = Reader::new(alloc);
    let mut rest = bytes;
    let mut line = 1;
    while let Some((next, after)) = split_line(rest) {
        match reader.step(alloc, next) {
            Ok(true) => {}
            Ok(false) => {
                drop(reader);
                return Err(MdlFault::Syntax { line });
            }
            Err(OutOfMemory) => {
                drop(reader);
                return Err(MdlFault::OutOfMemory);
            }
        }
        rest = after;
        line += 1;
    }
    match last_line(reader, alloc, rest)? {
        None => Err(MdlFault::Syntax { line }),
        Some(items) => Ok(Tree { items }),
    }
}

/// The first line without its newline, and what follows it. `None` where there is no newline.
fn split_line(text: &[u8]) -> Option<(&[u8], &[u8])>
    ensures { MatchOption result (IsOneLine text.now)
        (λ split. IsOneLine split.0.now × (text.now ≡ split.0.now ++ newline ∷ split.1.now)) }
{
    match memchr(b'\n', text) {
        None => None,
        Some(end) => Some((&text[..end], &text[end + 1..])),
    }
}

/// Reads the last line, and gives the items of the whole text. `None` where the text may not end
/// so.
fn last_line<'a>(
    mut reader: Reader<'a>,
    alloc: Global,
    line: &'a [u8],
) -> Result<Option<Items>, OutOfMemory>
    requires { IsBounded reader.pending }
    ensures { IfOk result (λ items. items ≡ run reader.entry (line.now ∷ [])) }
{
    match reader.step(alloc, line) {
        Ok(true) => reader.finish(alloc),
        Ok(false) => {
            drop(reader);
            Ok(None)
        }
        Err(wanting) => {
            drop(reader);
            Err(wanting)
        }
    }
}

/// The bytes of a text stand for at most one tree.
pub fn unique()
    ensures { (bytes : List ℕ) (one other : Tree) →
        Stands bytes one → Stands bytes other → one ≡ other }
{}

/// Bytes stop being the beginning of an MDL text at one line at most.
pub fn one_fault_line()
    ensures { (bytes : List ℕ) (one other : ℕ) →
        IsMdlFaultLine bytes one → IsMdlFaultLine bytes other → one ≡ other }
{}
