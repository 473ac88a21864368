// What the definitions together say. Each law is a function that does nothing.
ghost use Rattle.std.specs.Prelude.{◌≡◌, ◌<◌, ◌^◌, Bool, true, false, List, None, ℕ, ℤ, Contains, codes};
ghost use Rattle.vl_ast.specs.declared.expressions.Sized.{Sized};
ghost use Rattle.vl_ast.specs.declared.expressions.Expr.{Expr};
ghost use Rattle.vl_ast.specs.declared.expressions.Expr.TheOpen.{Expr-F};
ghost use Rattle.vl_ast.specs.declared.expressions.Expr.TheViews.{roll-Expr};
ghost use Rattle.vl_ast.specs.declared.expressions.Expr.TheFolds.{map-Expr};
ghost use Rattle.vl_ast.specs.declared.modules.Module.{Module};
ghost use Rattle.vl_ast.specs.Conditions.{BreaksNone, IsAcyclic, no_reset, too_wide};
ghost use Rattle.vl_ast.specs.Context.{Net, Operand, in_context, own_length, length_step, is_signed, sign_step};
ghost use Rattle.vl_ast.specs.Control.{is_stallable};
ghost use Rattle.vl_ast.specs.Copies.{MultiplicationsJoin, NameIsCopied, NameMultipliesNone};
ghost use Rattle.vl_ast.specs.Driven.{Driven, IsEnabled, IsResetLast};
ghost use Rattle.vl_ast.specs.Drivers.{OneDriver};
ghost use Rattle.vl_ast.specs.Gated.{HasAllOf, IsFresh, IsOpened, gated};
ghost use Rattle.vl_ast.specs.Grammar.{IsModuleText, Spells};
ghost use Rattle.vl_ast.specs.Layouts.{LayoutJoins, LayoutParts, LayoutStands};
ghost use Rattle.vl_ast.specs.Nets.{names_read};
ghost use Rattle.vl_ast.specs.Room.{AreSame, CanBeDriven, HasRoom, HasRows, RunsDriven, StartFits};
ghost use Rattle.vl_ast.specs.Runs.{Runs};
ghost use Rattle.vl_ast.specs.Spellable.{IsSpellable};
ghost use Rattle.vl_ast.specs.Spelling.{spelling};
ghost use Rattle.vl_ast.specs.Stalls.{AreCounted, AreThinned, AreUngated, KeepsBits, thin_window};
ghost use Rattle.vl_ast.specs.Steps.{AreSteps};
ghost use Rattle.vl_ast.specs.Tokens.{Token, Number, Based, IsWritable, AreWritable};
ghost use Rattle.vl_ast.specs.Value.{Bits, bits_step, operand_of, value_in};
ghost use Rattle.vl_ast.specs.Windows.{IsClock, PortNumbers, Shows, Window, row_at};

/// The written text of a module spells it, where some text does.
pub fn spelling_spells()
    ensures { (bytes : List ℕ) (m : Module) → Spells bytes m → Spells (spelling m) m }
{}

/// The written text of a module spells it, where the tokens of the module can each be written.
pub fn tokens_spell()
    ensures { (m : Module) (tokens : List Token) → IsModuleText m tokens → AreWritable tokens
        → Spells (spelling m) m }
{}

/// A module that breaks none of the first four conditions is spelled by its written text, where its
/// names are identifiers, its attributes short, and its expressions of the grammar.
pub fn sound_modules_spell()
    ensures { (m : Module) → IsAcyclic m → too_wide m ≡ None → IsSpellable m
        → Spells (spelling m) m }
{
    meaning_by_layer();
}

/// Numbers of at most nine digits and based numbers of at most 128 bits can be written.
pub fn numbers_are_writable()
    ensures plain { (number : ℕ) → number < 10 ^ 9 → IsWritable (Number number) }
    ensures based { (number : Sized) → number.width < 10 ^ 9 → number.bits < 2 ^ 128
        → IsWritable (Based number) }
{}

/// The length, the sign and the value of an expression from those of its operands.
pub fn meaning_by_layer()
    ensures length { (nets : List ℕ → Net) (layer : Expr-F Expr) →
        own_length nets (roll-Expr layer)
        ≡ length_step nets (map-Expr Expr ℕ (own_length nets) layer) }
    ensures sign { (nets : List ℕ → Net) (layer : Expr-F Expr) →
        is_signed nets (roll-Expr layer)
        ≡ sign_step nets (map-Expr Expr Bool (is_signed nets) layer) }
    ensures value { (nets : List ℕ → Net) (row : List ℕ
        → ℕ) (width : ℕ) (signed : Bool) (layer : Expr-F Expr) →
        value_in nets row width signed (roll-Expr layer)
        ≡ bits_step nets row width signed
        (in_context nets width signed (map-Expr Expr (Operand Bits) (operand_of nets row) layer)) }
{}

/// An expression's value hangs on the bits of the names that it reads, and on no others.
pub fn agreement()
    ensures { (nets : List ℕ → Net) (row other : List ℕ → ℕ) (e : Expr) (width : ℕ) (signed : Bool)
        →
        ((name : List ℕ) → Contains (names_read e) name → row name ≡ other name) →
        value_in nets row width signed e ≡ value_in nets other width signed e }
{
    meaning_by_layer();
}

/// A module that breaks no condition has rows over every start and all inputs that fit their widths, and
/// no two lists of rows that differ at a declared name.
pub fn one_run()
    ensures some { (m : Module) (count : ℕ) (start : List ℕ → ℕ) (inputs : ℕ → List ℕ → ℕ) →
        BreaksNone m → HasRoom m count start inputs → HasRows m count start inputs }
    ensures one { (m : Module) (count : ℕ) (start : List ℕ → ℕ) (inputs rows other : ℕ → List ℕ → ℕ)
        →
        BreaksNone m → Runs m count start inputs rows → Runs m count start inputs other
        → AreSame m count rows other }
{
    meaning_by_layer();
}

/// Of a module that breaks no condition, every stimulus drives some inputs that fit, over every count of
/// rows and with every row of them as the last with `reset`.
pub fn can_be_driven()
    ensures inputs { (m : Module) (stimulus : PortNumbers) (samples : ℕ) (window : Window) →
        BreaksNone m → window.last_reset < window.rows → CanBeDriven m stimulus samples window }
    ensures rows { (m : Module) (stimulus : PortNumbers) (samples : ℕ) (window : Window)
        (start : List ℕ → ℕ) →
        BreaksNone m → window.last_reset < window.rows → StartFits m start
        → RunsDriven m stimulus samples window start }
{
    meaning_by_layer();
}

/// A first row, and an edge from each row to the next, are a run.
pub fn steps_run()
    ensures { (m : Module) (count : ℕ) (start : List ℕ → ℕ) (inputs rows : ℕ → List ℕ → ℕ) →
        AreSteps m count start inputs rows → Runs m count start inputs rows }
{}

/// Of a module whose registers keep their bits in rows with `reset` 0 and `clk_enable` 0, the counted
/// rows of a run are the rows behind the first, which has `reset`, of a run in which `clk_enable` is 1
/// in every row.
pub fn counted_rows_run()
    ensures { (m : Module) (window : Window) (start : List ℕ → ℕ) (inputs rows : ℕ → List ℕ → ℕ) →
        IsAcyclic m → no_reset m ≡ None → is_stallable m ≡ true → KeepsBits m → IsResetLast window inputs
        → Runs m window.rows start inputs rows → AreThinned m window inputs rows }
{
    meaning_by_layer();
}

/// The counted rows of a run that a stimulus drives are driven by it as rows of a run without stalls,
/// and what a name shows there it shows at each clock.
pub fn counted_rows_show()
    ensures driven { (m : Module) (window : Window) (inputs rows : ℕ → List ℕ → ℕ) (thinned : AreThinned m window inputs rows)
        (stimulus : PortNumbers) (samples : ℕ) → Driven m stimulus samples window inputs
        → Driven m stimulus samples (thin_window m window inputs) thinned.thin_inputs }
    ensures shows { (m : Module) (window : Window) (inputs rows : ℕ → List ℕ → ℕ) (thinned : AreThinned m window inputs rows)
        (name : List ℕ) (width : ℕ) (number : ℤ) (from until : ℕ)
        → Shows m (thin_window m window inputs) thinned.thin_inputs thinned.thin_rows name width number from until
        → Shows m window inputs rows name width number from until }
{}

/// Each row behind the last with `reset` is a clock where `clk_enable` is 1 in every row, and of a module
/// that can't be stalled.
pub fn rows_are_clocks()
    ensures enabled { (m : Module) (window : Window) (inputs : ℕ → List ℕ → ℕ) → IsEnabled window inputs
        → (place : ℕ) → row_at window place < window.rows → IsClock m window inputs place place }
    ensures plain { (m : Module) (window : Window) (inputs : ℕ → List ℕ → ℕ) → is_stallable m ≡ false
        → (place : ℕ) → row_at window place < window.rows → IsClock m window inputs place place }
{}

/// Of a stallable module whose registers are gated by `clk_enable`: they keep their bits where it is 0, a
/// run in which it is 1 in every row is a run of the module that isn't gated, and no condition is broken
/// that the module doesn't break.
pub fn gated_modules()
    ensures keeps { (m : Module) → IsAcyclic m → is_stallable m ≡ true → KeepsBits (gated m) }
    ensures runs { (m : Module) (count : ℕ) (start : List ℕ → ℕ) (inputs rows : ℕ → List ℕ → ℕ) →
        IsAcyclic m → is_stallable m ≡ true → Runs (gated m) count start inputs rows
        → ((k : ℕ) → k < count → inputs k (codes "clk_enable") ≡ 1)
        → Runs m count start inputs rows }
    ensures conditions { (m : Module) → is_stallable m ≡ true → BreaksNone m → BreaksNone (gated m) }
{
    meaning_by_layer();
}

/// A run of a module is a run of each module of which it has all ports and items, where both keep the
/// first three conditions.
pub fn parts_run()
    ensures { (m whole : Module) (count : ℕ) (start : List ℕ → ℕ) (inputs rows : ℕ → List ℕ → ℕ) →
        IsAcyclic m → IsAcyclic whole → HasAllOf m whole
        → Runs whole count start inputs rows → Runs m count start inputs rows }
{
    meaning_by_layer();
}

/// The counted rows of a run of a gated module are rows of a run of the module itself without stalls.
pub fn gated_rows_run()
    ensures { (m : Module) (window : Window) (start : List ℕ → ℕ) (inputs rows : ℕ → List ℕ → ℕ) →
        IsAcyclic m → no_reset m ≡ None → is_stallable m ≡ true → IsResetLast window inputs
        → Runs (gated m) window.rows start inputs rows → AreUngated m window inputs rows }
{
    meaning_by_layer();
}

/// A module that declares neither `clk_enable` nor `ce_out` breaks no condition with both added. The counted rows of a run of its gated form are rows of a run of the
/// module itself.
pub fn opened_modules()
    ensures acyclic { (m opened : Module) → IsAcyclic m → IsFresh m → IsOpened m opened → IsAcyclic opened }
    ensures clocked { (m opened : Module) → IsAcyclic m → IsFresh m → IsOpened m opened → no_reset m ≡ None
        → no_reset opened ≡ None }
    ensures conditions { (m opened : Module) → BreaksNone m → IsFresh m → IsOpened m opened → BreaksNone opened }
    ensures stallable { (m opened : Module) → IsOpened m opened → is_stallable opened ≡ true }
    ensures rows { (m opened : Module) (window : Window) (start : List ℕ → ℕ) (inputs rows : ℕ → List ℕ → ℕ) →
        IsAcyclic m → IsFresh m → IsOpened m opened → no_reset m ≡ None → IsResetLast window inputs
        → Runs (gated opened) window.rows start inputs rows → AreCounted m opened window inputs rows }
{
    meaning_by_layer();
}

/// A layout can be cut behind each of its tokens, and two that fit are one. Behind a key word of three
/// bytes or more any bytes may follow.
pub fn layouts_part()
    ensures parts { LayoutParts }
    ensures joins { LayoutJoins }
    ensures stands { LayoutStands }
{}

/// In a module that breaks none of the first three conditions, each declared name that needs a driver
/// has exactly one.
pub fn one_driver()
    ensures { OneDriver }
{}

/// A name that is assigned another of its width takes its bits, and no multiplication is in it.
pub fn name_is_copied()
    ensures copied { NameIsCopied }
    ensures bare { NameMultipliesNone }
{}

/// The multiplications of items, and then those of more.
pub fn multiplications_join()
    ensures { MultiplicationsJoin }
{}
