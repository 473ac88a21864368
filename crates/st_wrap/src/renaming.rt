//! The core's items and ports in the wrapper.
ghost use Rattle.std.specs.Prelude.{◌≡◌, ◌∷◌, [], ℕ, List, map, IfOk};
ghost use Rattle.vl_ast.specs.declared.expressions.Expr.{Expr};
ghost use Rattle.vl_ast.specs.declared.expressions.Expr.TheViews.{out-Expr};
ghost use Rattle.vl_ast.specs.Listing.{Holds, Lists};
ghost use Rattle.st_wrap.specs.inner.CoreNames.{core_items, renamed, renamed_condition, renamed_item, wires_of, with_name, with_part};

use crate::names::{inner_name, is_shared};
use fx_io::Text;
use std::alloc::Global;
use vl_ast::{
    Expr, Listing, Made, ModItem, Module, begin, binary, choose, concat, in_box, put_assignment,
    put_clocked, put_declaration, put_expression, some_condition,
};

/// A bit or a part, as the expression is, of another name; else the name.
fn over_name(e: &Expr, name: Made<Text>) -> Made<Expr>
    ensures { (text : List ℕ) → IfOk name (λ made. made ≡ text)
        → IfOk result (λ made. made ≡ with_name (out-Expr e.now) text) }
{
    let name = name?;
    match e {
        Expr::Bit(_, place) => Ok(Expr::Bit(name, *place)),
        Expr::Part(_, high, low) => Ok(Expr::Part(name, *high, *low)),
        _ => Ok(Expr::Name(name)),
    }
}

/// What the expression makes of one operand, made of another; else a cast without sign.
fn over_part(alloc: Global, e: &Expr, part: Made<Expr>) -> Made<Expr>
    ensures { (is : Expr) → IfOk part (λ made. made ≡ is)
        → IfOk result (λ made. made ≡ with_part (out-Expr e.now) is) }
{
    let part = in_box(alloc, part)?;
    match e {
        Expr::Repeat(count, _) => Ok(Expr::Repeat(*count, part)),
        Expr::AsSigned(_) => Ok(Expr::AsSigned(part)),
        Expr::Unary(op, _) => Ok(Expr::Unary(*op, part)),
        Expr::Shift(op, _, amount) => Ok(Expr::Shift(*op, part, *amount)),
        _ => Ok(Expr::AsUnsigned(part)),
    }
}

/// An expression over the names that the core's have in the wrapper. The recursion is as deep as the
/// expression nests.
#[cycle(renaming)]
fn renamed_expr(alloc: Global, e: &Expr) -> Made<Expr>
    ensures { IfOk result (λ made. made ≡ renamed e.now) }
{
    match e {
        Expr::Name(name) | Expr::Bit(name, _) | Expr::Part(name, _, _) => {
            over_name(e, inner_name(alloc, name.bytes()))
        }
        Expr::Literal(number) => Ok(Expr::Literal(*number)),
        Expr::Concat(parts) => concat(renamed_parts(alloc, parts.as_slice())),
        Expr::Repeat(_, part)
        | Expr::AsSigned(part)
        | Expr::AsUnsigned(part)
        | Expr::Unary(_, part)
        | Expr::Shift(_, part, _) => over_part(alloc, e, renamed_expr(alloc, part.get())),
        Expr::Binary(op, left, right) => {
            let left = renamed_expr(alloc, left.get());
            binary(alloc, *op, left, renamed_expr(alloc, right.get()))
        }
        Expr::Choose(test, chosen, other) => {
            let test = renamed_expr(alloc, test.get());
            let chosen = renamed_expr(alloc, chosen.get());
            choose(alloc, test, chosen, renamed_expr(alloc, other.get()))
        }
    }
}

#[cycle(renaming)]
fn renamed_parts(alloc: Global, parts: &[Expr]) -> Listing<Expr>
    ensures { Holds result (map renamed parts.now) }
{
    let mut out = begin(alloc);
    for part in parts {
        put_expression(&mut out, renamed_expr(alloc, part));
    }
    out
}

fn renamed_condition(alloc: Global, condition: &Option<Expr>) -> Made<Option<Expr>>
    ensures { IfOk result (λ made. made ≡ renamed_condition condition.now) }
{
    match condition {
        None => Ok(None),
        Some(condition) => some_condition(renamed_expr(alloc, condition)),
    }
}

fn put_renamed(alloc: Global, out: &mut Listing<ModItem>, item: &ModItem)
    ensures { Lists out.old out.new (renamed_item item.now ∷ []) }
{
    let name = inner_name(alloc, item.name());
    match item {
        ModItem::Wire { signed, width, .. } => put_declaration(out, false, *signed, *width, name),
        ModItem::Reg { signed, width, .. } => put_declaration(out, true, *signed, *width, name),
        ModItem::Assign { value, .. } => put_assignment(out, name, renamed_expr(alloc, value)),
        ModItem::Always {
            first,
            condition,
            value,
            ..
        } => put_clocked(
            out,
            name,
            *first,
            renamed_condition(alloc, condition),
            renamed_expr(alloc, value),
        ),
    }
}

/// Puts a wire for each port of the core but `clk` and `reset`.
pub fn put_wires(alloc: Global, out: &mut Listing<ModItem>, core: &Module)
    ensures { Lists out.old out.new (wires_of core.now) }
{
    for port in core.ports.as_slice() {
        if !is_shared(port.name.bytes()) {
            let name = inner_name(alloc, port.name.bytes());
            put_declaration(out, false, port.signed, port.width, name);
        }
    }
}

/// Puts the items of the core.
pub fn put_core(alloc: Global, out: &mut Listing<ModItem>, core: &Module)
    ensures { Lists out.old out.new (core_items core.now) }
{
    for item in core.items.as_slice() {
        put_renamed(alloc, out, item);
    }
}
