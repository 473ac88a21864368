ghost use Rattle.std.specs.Prelude.{◌≡◌, ◌≤◌, ◌&&◌, true, max};
ghost use Rattle.vl_ast.specs.Conditions.{is_sound};
ghost use Rattle.vl_check.specs.Scope.{nets_in};
ghost use Rattle.vl_eval.specs.inner.Contexts.{half_in, left_context, unary_context};

use crate::operators::half_of;
use crate::site::{Site, shape_of};
use vl_ast::{BinOp, Expr, UnOp};
use vl_check::Shape;

/// The context of the operand of an operator.
pub fn unary_context(site: &Site<'_, '_>, op: UnOp, part: &Expr, context: Shape) -> Shape
    requires { is_sound (nets_in site.now.scope.now) part.now ≡ true }
    ensures { result ≡ unary_context (nets_in site.now.scope.now) op part.now context.length
        context.signed }
{
    match op {
        UnOp::Negate | UnOp::Invert => context,
        UnOp::IsZero => shape_of(site, part),
    }
}

/// The context of the left operand of an operator.
pub fn left_context(
    site: &Site<'_, '_>,
    op: BinOp,
    left: &Expr,
    right: &Expr,
    context: Shape,
) -> Shape
    requires left { is_sound (nets_in site.now.scope.now) left.now ≡ true }
    requires right { is_sound (nets_in site.now.scope.now) right.now ≡ true }
    ensures { result ≡ left_context (nets_in site.now.scope.now) op left.now right.now
        context.length context.signed }
{
    match op {
        BinOp::Add | BinOp::Subtract | BinOp::Multiply | BinOp::And | BinOp::Or | BinOp::Xor =>
            context,
        BinOp::Equal
        | BinOp::NotEqual
        | BinOp::Less
        | BinOp::LessEqual
        | BinOp::Greater
        | BinOp::GreaterEqual => joint_context(shape_of(site, left), shape_of(site, right)),
        BinOp::Both | BinOp::Either => shape_of(site, left),
    }
}

/// The context that two operands make together.
fn joint_context(left: Shape, right: Shape) -> Shape
    ensures length { result.length ≡ max left.length right.length }
    ensures sign { result.signed ≡ (left.signed && right.signed) }
{
    Shape {
        length: left.length.max(right.length),
        signed: left.signed & right.signed,
    }
}

/// The weight of the sign bit of a context, or 0 where it has no sign.
pub fn half_in(context: Shape) -> u128
    requires { context.length ≤ 128 }
    ensures { result ≡ half_in context }
{
    if context.signed {
        half_of(context.length)
    } else {
        0
    }
}
