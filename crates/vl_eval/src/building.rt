ghost use Rattle.vl_ast.specs.declared.expressions.Expr.TheVariants.{AsSigned, AsUnsigned, Binary, Choose, Concat, Repeat, Shift, Unary};
ghost use Rattle.vl_check.specs.declared.shapes.Shape.{Shape};
ghost use Rattle.vl_eval.specs.inner.Site.{CanBuild, CanBuildAlone, IsBuilt, IsBuiltAlone};

use crate::adding::{Additions, beside, extend, push};
use crate::contexts::{half_in, left_context, unary_context};
use crate::leaves::{build_bit, build_literal, build_name, build_part};
use crate::operators::{binary_op, shift_op, unary_op};
use crate::ops::Op;
use crate::site::{Alone, Site, shape_of, unsigned_slot};
use vl_ast::{BinOp, Expr, ShiftOp, Sized, UnOp, mask_of};
use vl_check::Shape;

#[cycle(build)]
fn build_unary(
    ops: &mut Additions,
    site: &Site<'_, '_>,
    op: UnOp,
    part: &Expr,
    context: Shape,
) -> usize
    requires { CanBuild site.now ops.old context.length (Unary op part.now) }
    ensures { IsBuilt site.now ops.old ops.new context (Unary op part.now) result }
{
    let inner = unary_context(site, op, part, context);
    let slot = build(ops, site, part, inner);
    push(ops, site.base, unary_op(op, slot, mask_of(context.length)))
}

#[cycle(build)]
fn build_binary(
    ops: &mut Additions,
    site: &Site<'_, '_>,
    op: BinOp,
    left: &Expr,
    right: &Expr,
    context: Shape,
) -> usize
    requires { CanBuild site.now ops.old context.length (Binary op left.now right.now) }
    ensures { IsBuilt site.now ops.old ops.new context (Binary op left.now right.now)
        result }
{
    let on_left = left_context(site, op, left, right, context);
    let on_right = left_context(site, op, right, left, context);
    let first = build(ops, site, left, on_left);
    let second = build(ops, site, right, on_right);
    push(
        ops,
        site.base,
        binary_op(op, first, second, mask_of(context.length), half_in(on_left)),
    )
}

#[cycle(build)]
fn build_shift(
    ops: &mut Additions,
    site: &Site<'_, '_>,
    op: ShiftOp,
    part: &Expr,
    amount: &Sized,
    context: Shape,
) -> usize
    requires { CanBuild site.now ops.old context.length (Shift op part.now amount.now) }
    ensures { IsBuilt site.now ops.old ops.new context (Shift op part.now amount.now)
        result }
{
    let slot = build(ops, site, part, context);
    push(
        ops,
        site.base,
        shift_op(op, slot, amount.bits.get(), context.length, context.signed),
    )
}

#[cycle(build)]
fn build_choice(
    ops: &mut Additions,
    site: &Site<'_, '_>,
    test: &Expr,
    chosen: &Expr,
    other: &Expr,
    context: Shape,
) -> usize
    requires { CanBuild site.now ops.old context.length (Choose test.now chosen.now other.now) }
    ensures { IsBuilt site.now ops.old ops.new context (Choose test.now chosen.now other.now)
        result }
{
    let tested = build_alone(ops, site, test);
    let first = build(ops, site, chosen, context);
    let second = build(ops, site, other, context);
    push(
        ops,
        site.base,
        Op::Choose {
            test: tested.slot,
            chosen: first,
            other: second,
        },
    )
}

#[cycle(build)]
fn build_as_signed(ops: &mut Additions, site: &Site<'_, '_>, part: &Expr, context: Shape) -> usize
    requires { CanBuild site.now ops.old context.length (AsSigned part.now) }
    ensures { IsBuilt site.now ops.old ops.new context (AsSigned part.now) result }
{
    let own = build_alone(ops, site, part);
    if !context.signed {
        return own.slot;
    }
    extend(ops, site.base, own.slot, own.shape.length, context.length)
}

#[cycle(build)]
fn build_as_unsigned(ops: &mut Additions, site: &Site<'_, '_>, part: &Expr, context: Shape) -> usize
    requires { CanBuild site.now ops.old context.length (AsUnsigned part.now) }
    ensures { IsBuilt site.now ops.old ops.new context (AsUnsigned part.now) result }
{
    let own = build_alone(ops, site, part);
    own.slot
}

#[cycle(build)]
fn build_parts(ops: &mut Additions, site: &Site<'_, '_>, parts: &[Expr]) -> Alone
    requires { CanBuildAlone site.now ops.old (Concat parts.now) }
    ensures own { IsBuiltAlone site.now ops.old ops.new (Concat parts.now) result }
    ensures built { (context : Shape) → IsBuilt site.now ops.old ops.new context
        (Concat parts.now) result.slot }
{
    let mut joined = 0;
    let mut length = 0;
    for part in parts {
        let own = build_alone(ops, site, part);
        joined = beside(ops, site.base, joined, length, own.slot, own.shape.length);
        length += own.shape.length;
    }
    if length == 0 {
        let slot = push(ops, site.base, Op::Constant(0));
        return unsigned_slot(slot, length);
    }
    unsigned_slot(joined, length)
}

#[cycle(build)]
fn build_copies(ops: &mut Additions, site: &Site<'_, '_>, count: u32, part: &Expr) -> Alone
    requires { CanBuildAlone site.now ops.old (Repeat count part.now) }
    ensures own { IsBuiltAlone site.now ops.old ops.new (Repeat count part.now) result }
    ensures built { (context : Shape) → IsBuilt site.now ops.old ops.new context
        (Repeat count part.now) result.slot }
{
    let own = build_alone(ops, site, part);
    if own.shape.length == 1 {
        // copies of a bit are what its sign would put on its left
        let slot = extend(ops, site.base, own.slot, 1, count);
        return unsigned_slot(slot, count);
    }
    let mut joined = own.slot;
    let mut length = own.shape.length;
    for _copy in 1..count {
        joined = beside(ops, site.base, joined, length, own.slot, own.shape.length);
        length += own.shape.length;
    }
    unsigned_slot(joined, length)
}

/// Adds the operations of an expression in the context that it makes by itself. Those of parts that
/// stand side by side say how long they are, so that nested ones are gone through once.
#[cycle(build)]
fn build_alone(ops: &mut Additions, site: &Site<'_, '_>, e: &Expr) -> Alone
    requires { CanBuildAlone site.now ops.old e.now }
    ensures { IsBuiltAlone site.now ops.old ops.new e.now result }
{
    match e {
        Expr::Concat(parts) => build_parts(ops, site, parts.as_slice()),
        Expr::Repeat(count, part) => build_copies(ops, site, *count, part.get()),
        _ => {
            let shape = shape_of(site, e);
            let slot = build(ops, site, e, shape);
            Alone { slot, shape }
        }
    }
}

/// Adds the operations of an expression in a context, and gives the place of its value. The recursion
/// is as deep as the expression nests.
#[cycle(build)]
pub fn build(ops: &mut Additions, site: &Site<'_, '_>, e: &Expr, context: Shape) -> usize
    requires { CanBuild site.now ops.old context.length e.now }
    ensures { IsBuilt site.now ops.old ops.new context e.now result }
{
    match e {
        Expr::Name(name) => build_name(ops, site, name.bytes(), context),
        Expr::Bit(name, place) => build_bit(ops, site, name.bytes(), *place, context),
        Expr::Part(name, high, low) => { build_part(ops, site, name.bytes(), *high, *low, context) }
        Expr::Literal(number) => build_literal(ops, site, number, context),
        Expr::Concat(parts) => build_parts(ops, site, parts.as_slice()).slot,
        Expr::Repeat(count, part) => build_copies(ops, site, *count, part.get()).slot,
        Expr::AsSigned(part) => build_as_signed(ops, site, part.get(), context),
        Expr::AsUnsigned(part) => build_as_unsigned(ops, site, part.get(), context),
        Expr::Unary(op, part) => build_unary(ops, site, *op, part.get(), context),
        Expr::Binary(op, left, right) => {
            build_binary(ops, site, *op, left.get(), right.get(), context)
        }
        Expr::Shift(op, part, amount) => {
            build_shift(ops, site, *op, part.get(), amount, context)
        }
        Expr::Choose(test, chosen, other) => build_choice(
            ops,
            site,
            test.get(),
            chosen.get(),
            other.get(),
            context,
        ),
    }
}
