ghost use Rattle.std.specs.Prelude.{◌≤◌, IfOk};
ghost use Rattle.vl_ast.specs.Grammar.{most_items};
ghost use Rattle.vl_hier.specs.Fault.{IfLink, IfSyntax};
ghost use Rattle.vl_read.specs.Designs.{IsDesignFaultLine, IsNoDesign, SpellsDesign, items_in};

use crate::refusal::HierFault;
use std::alloc::Global;
use vl_read::{Design, VlSyntax, read_design};

/// Reads the text of a design: modules one after another, and in the last of them instances of the
/// others (IEEE 1364-2005, 12.1).
///
/// # Errors
/// `Syntax` has the line at which the bytes stop being the beginning of such a text, counted from 1.
pub fn read(alloc: Global, bytes: &[u8]) -> Result<Design, HierFault>
    // The bytes spell the design, which has at most 4,000,000 items, instances counted.
    ensures found { IfOk result (λ design. SpellsDesign bytes.now design) }
    ensures few { IfOk result (λ design. items_in design ≤ most_items) }
    // A fault in the text comes only where they spell no such design.
    ensures refused { IfSyntax result (λ _. IsNoDesign bytes.now) }
    ensures line { IfSyntax result (λ line. IsDesignFaultLine bytes.now line) }
    ensures unlinked { IfLink result (λ _. ⊥) }
{
    match read_design(alloc, bytes) {
        Ok(design) => Ok(design),
        Err(VlSyntax::Syntax { line }) => Err(HierFault::Syntax { line }),
        Err(VlSyntax::OutOfMemory) => Err(HierFault::OutOfMemory),
    }
}
