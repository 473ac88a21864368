// What the definitions together say. Each law is a function that does nothing.
ghost use Rattle.std.specs.Prelude.{◌≡◌, ◌≤◌, ℕ, List, length, Result, IfOk};
ghost use Rattle.vl_ast.specs.declared.modules.Module.{Module};
ghost use Rattle.vl_ast.specs.Grammar.{Spells, most_items};
ghost use Rattle.vl_ast.specs.Spelling.{spelling};
ghost use Rattle.vl_read.specs.declared.design.Design.{Design};
ghost use Rattle.vl_read.specs.declared.fault.VlSyntax.{VlSyntax};
ghost use Rattle.vl_read.specs.Designs.{SpellsDesign};
ghost use Rattle.vl_read.specs.Prefix.{IsRefused, IsVerilogFaultLine, IfSyntax, IsReadBack};

use vl_ast::spelling_spells;

/// The bytes of a text spell at most one module.
pub fn unique()
    ensures { (bytes : List ℕ) (one other : Module)
        → Spells bytes one → Spells bytes other → one ≡ other }
{}

/// The bytes of a text spell at most one design.
pub fn unique_design()
    ensures { (bytes : List ℕ) (one other : Design)
        → SpellsDesign bytes one → SpellsDesign bytes other → one ≡ other }
{}

/// The written text of a module spells it and no other, where some text spells it.
pub fn spelling_spells_alone()
    ensures spells { (text : List ℕ) (m : Module) → Spells text m → Spells (spelling m) m }
    ensures alone { (text : List ℕ) (m other : Module) → Spells text m → Spells (spelling m) other
        → other ≡ m }
{
    spelling_spells();
}

/// A spelled module reads back: by its clauses `found` and `refused`, `read` answers a text of a module that
/// isn't too long by this module, or by want of memory.
pub fn reads_back()
    ensures { (text : List ℕ) (m : Module) (answer : Result Module VlSyntax) → Spells text m
        → length m.items ≤ most_items → IfOk answer (λ n. Spells text n)
        → IfSyntax answer (λ _. IsRefused text) → IsReadBack answer m }
{}

/// The bytes stop being the beginning of a text at one line at most.
pub fn one_fault_line()
    ensures { (bytes : List ℕ) (one other : ℕ) → IsVerilogFaultLine bytes one
        → IsVerilogFaultLine bytes other → one ≡ other }
{}
