//! What the definitions together say. Each law is a function that does nothing.
ghost use Rattle.std.specs.Prelude.{◌≤◌, ℕ, List, Result, IfOk};
ghost use Rattle.vl_ast.specs.Grammar.{most_items};
ghost use Rattle.vl_hier.specs.declared.refusal.HierFault.{HierFault};
ghost use Rattle.vl_hier.specs.Fault.{IfLink, IfSyntax};
ghost use Rattle.vl_hier.specs.Written.{IsDesignSpelling, IsReadBack};
ghost use Rattle.vl_read.specs.declared.design.Design.{Design};
ghost use Rattle.vl_read.specs.Designs.{IsNoDesign, SpellsDesign, items_in};

use vl_read::unique_design;

/// The written text of a design spells it, where some text does.
pub fn design_spelling_spells()
    ensures { (bytes text : List ℕ) (design : Design) → SpellsDesign bytes design
        → IsDesignSpelling design text → SpellsDesign text design }
{}

/// A spelled design reads back: by its clauses `read` answers a text of a design that isn't too long by
/// this design, or by want of memory.
pub fn design_reads_back()
    ensures { (text : List ℕ) (design : Design) (answer : Result Design HierFault)
        → SpellsDesign text design → items_in design ≤ most_items
        → IfOk answer (SpellsDesign text) → IfSyntax answer (λ _. IsNoDesign text)
        → IfLink answer (λ _. ⊥) → IsReadBack answer design }
{
    unique_design();
}
