ghost use Rattle.std.specs.Prelude.{◌≡◌, [], IfOk, MatchOption, Some, None};
ghost use Rattle.vl_ast.specs.declared.expressions.Expr.TheOpen.{Expr-F};
ghost use Rattle.vl_ast.specs.declared.expressions.Expr.TheViews.{roll-Expr};
ghost use Rattle.vl_read.specs.inner.Plain.{innermost};
ghost use Rattle.vl_read.specs.inner.OperandForms.{wrapped_in};

use crate::places::Frame;
use fx_io::{Boxed, OutOfMemory, Text};
use std::alloc::Global;
use vl_ast::{BinOp, Expr, Exprs, ShiftOp, Sized, UnOp};

/// A name.
pub fn whole_name(name: Text) -> Expr
    ensures { result ≡ roll-Expr (Expr-F.Name name) }
{
    Expr::Name(name)
}

/// A bit of a name.
pub fn bit(name: Text, place: u32) -> Expr
    ensures { result ≡ roll-Expr (Expr-F.Bit name place) }
{
    Expr::Bit(name, place)
}

/// A part of a name.
pub fn part(name: Text, high: u32, low: u32) -> Expr
    ensures { result ≡ roll-Expr (Expr-F.Part name high low) }
{
    Expr::Part(name, high, low)
}

/// A number.
pub fn literal(number: Sized) -> Expr
    ensures { result ≡ roll-Expr (Expr-F.Literal number) }
{
    Expr::Literal(number)
}

/// The operands of a concatenation that begins, with room for one, as most have no other.
pub fn no_operands(alloc: Global) -> Result<Exprs, OutOfMemory>
    ensures { IfOk result (λ operands. operands ≡ []) }
{
    Ok(Exprs::from_vec(Vec::with_capacity(alloc, 1)?))
}

/// A concatenation, which keeps no room for further operands.
pub fn concat(parts: Exprs) -> Expr
    ensures { result ≡ roll-Expr (Expr-F.Concat parts) }
{
    let mut parts = parts.into_vec();
    parts.shrink_to_fit();
    Expr::Concat(Exprs::from_vec(parts))
}

/// What stands around an operand that is alone in it.
#[derive(Clone, Copy)]
pub enum Wrap {
    /// `{`, this number and `{` before it, and `}}` behind it.
    Repeat(u32),
    /// `$signed (`, or else `$unsigned (`, before it, and `)` behind it.
    Cast(bool),
    /// `(` and this operator before it, and `)` behind it.
    Unary(UnOp),
    /// `(` before it, and this operator, this amount and `)` behind it.
    Shift(ShiftOp, Sized),
}

/// An operand with what stands around it.
pub fn wrapped(alloc: Global, wrap: Wrap, part: Expr) -> Result<Expr, OutOfMemory>
    ensures { IfOk result (λ e. e ≡ wrapped_in wrap part) }
{
    let part = Boxed::new(alloc, part)?;
    match wrap {
        Wrap::Repeat(count) => Ok(Expr::Repeat(count, part)),
        Wrap::Cast(signed) => {
            if signed {
                Ok(Expr::AsSigned(part))
            } else {
                Ok(Expr::AsUnsigned(part))
            }
        }
        Wrap::Unary(op) => Ok(Expr::Unary(op, part)),
        Wrap::Shift(op, amount) => Ok(Expr::Shift(op, part, amount)),
    }
}

/// An operator between its operands.
pub fn binary(alloc: Global, op: BinOp, left: Boxed<Expr>, right: Expr) -> Result<Expr, OutOfMemory>
    ensures { IfOk result (λ e. e ≡ roll-Expr (Expr-F.Binary op left right)) }
{
    vl_ast::binary_of(op, Ok(left), Boxed::new(alloc, right))
}

/// A choice.
pub fn choose(
    alloc: Global,
    test: Boxed<Expr>,
    chosen: Boxed<Expr>,
    other: Expr,
) -> Result<Expr, OutOfMemory>
    ensures { IfOk result (λ e. e ≡ roll-Expr (Expr-F.Choose test chosen other)) }
{
    vl_ast::choose_of(Ok(test), Ok(chosen), Boxed::new(alloc, other))
}

/// Takes the innermost frame off.
pub fn innermost(frames: &mut Vec<Frame>) -> Option<Frame>
    ensures { MatchOption result (innermost frames.old.items ≡ None)
        (λ frame. innermost frames.old.items ≡ Some (frames.new.items, frame)) }
{
    match frames.pop() {
        None => None,
        Some(frame) => Some(frame),
    }
}
