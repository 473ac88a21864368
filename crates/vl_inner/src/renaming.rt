//! Items of a module over the names that its own have elsewhere.
ghost use Rattle.std.specs.Prelude.{◌≡◌, ◌∷◌, [], ℕ, List, map, IfOk};
ghost use Rattle.vl_ast.specs.declared.expressions.Expr.{Expr};
ghost use Rattle.vl_ast.specs.declared.expressions.Expr.TheViews.{out-Expr};
ghost use Rattle.vl_ast.specs.Listing.{Holds, Lists};
ghost use Rattle.vl_inner.specs.Names.{name_by};
ghost use Rattle.vl_inner.specs.Renamed.{renamed, renamed_condition, renamed_item, with_name, with_part};

use crate::names::{Naming, name_by};
use fx_io::Text;
use std::alloc::Global;
use vl_ast::{
    Expr, Listing, Made, ModItem, begin, binary, choose, concat, in_box, put_assignment,
    put_clocked, put_declaration, put_expression, some_condition,
};

/// A bit or a part, as the expression is, of another name; else the name.
fn over_name(e: &Expr, name: Made<Text>) -> Made<Expr>
    ensures { (text : List ℕ) → IfOk name (λ made. made ≡ text)
        → IfOk result (λ made. made ≡ with_name (out-Expr e.now) text) }
{
    let name = name?;
    match e {
        Expr::Bit(_, place) => Ok(Expr::Bit(name, *place)),
        Expr::Part(_, high, low) => Ok(Expr::Part(name, *high, *low)),
        _ => Ok(Expr::Name(name)),
    }
}

/// What the expression makes of one operand, made of another; else a cast without sign.
fn over_part(alloc: Global, e: &Expr, part: Made<Expr>) -> Made<Expr>
    ensures { (is : Expr) → IfOk part (λ made. made ≡ is)
        → IfOk result (λ made. made ≡ with_part (out-Expr e.now) is) }
{
    let part = in_box(alloc, part)?;
    match e {
        Expr::Repeat(count, _) => Ok(Expr::Repeat(*count, part)),
        Expr::AsSigned(_) => Ok(Expr::AsSigned(part)),
        Expr::Unary(op, _) => Ok(Expr::Unary(*op, part)),
        Expr::Shift(op, _, amount) => Ok(Expr::Shift(*op, part, *amount)),
        _ => Ok(Expr::AsUnsigned(part)),
    }
}

/// An expression over the names that the module's have so. The recursion is as deep as the expression
/// nests.
#[cycle(renaming)]
fn renamed_expr(alloc: Global, naming: Naming<'_>, e: &Expr) -> Made<Expr>
    ensures { IfOk result (λ made. made ≡ renamed (name_by naming.entry) e.now) }
{
    match e {
        Expr::Name(name) | Expr::Bit(name, _) | Expr::Part(name, _, _) => {
            over_name(e, name_by(alloc, naming, name.bytes()))
        }
        Expr::Literal(number) => Ok(Expr::Literal(*number)),
        Expr::Concat(parts) => concat(renamed_parts(alloc, naming, parts.as_slice())),
        Expr::Repeat(_, part)
        | Expr::AsSigned(part)
        | Expr::AsUnsigned(part)
        | Expr::Unary(_, part)
        | Expr::Shift(_, part, _) => over_part(alloc, e, renamed_expr(alloc, naming, part.get())),
        Expr::Binary(op, left, right) => {
            let left = renamed_expr(alloc, naming, left.get());
            binary(alloc, *op, left, renamed_expr(alloc, naming, right.get()))
        }
        Expr::Choose(test, chosen, other) => {
            let test = renamed_expr(alloc, naming, test.get());
            let chosen = renamed_expr(alloc, naming, chosen.get());
            choose(
                alloc,
                test,
                chosen,
                renamed_expr(alloc, naming, other.get()),
            )
        }
    }
}

#[cycle(renaming)]
fn renamed_parts(alloc: Global, naming: Naming<'_>, parts: &[Expr]) -> Listing<Expr>
    ensures { Holds result (map (renamed (name_by naming.entry)) parts.now) }
{
    let mut out = begin(alloc);
    for part in parts {
        put_expression(&mut out, renamed_expr(alloc, naming, part));
    }
    out
}

fn renamed_condition(
    alloc: Global,
    naming: Naming<'_>,
    condition: &Option<Expr>,
) -> Made<Option<Expr>>
    ensures { IfOk result (λ made. made
        ≡ renamed_condition (name_by naming.entry) condition.now) }
{
    match condition {
        None => Ok(None),
        Some(condition) => some_condition(renamed_expr(alloc, naming, condition)),
    }
}

/// Puts an item of the module, its names called so, behind the others.
pub fn put_renamed(alloc: Global, out: &mut Listing<ModItem>, naming: Naming<'_>, item: &ModItem)
    ensures { Lists out.old out.new (renamed_item (name_by naming.entry) item.now ∷ []) }
{
    let name = name_by(alloc, naming, item.name());
    match item {
        ModItem::Wire { signed, width, .. } => put_declaration(out, false, *signed, *width, name),
        ModItem::Reg { signed, width, .. } => put_declaration(out, true, *signed, *width, name),
        ModItem::Assign { value, .. } => put_assignment(
            out,
            name,
            renamed_expr(alloc, naming, value),
        ),
        ModItem::Always {
            first,
            condition,
            value,
            ..
        } => put_clocked(
            out,
            name,
            *first,
            renamed_condition(alloc, naming, condition),
            renamed_expr(alloc, naming, value),
        ),
    }
}
