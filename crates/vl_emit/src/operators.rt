ghost use Rattle.std.specs.Prelude.{◌≡◌, ◌+◌, ◌-◌, ◌≤◌, ◌<◌, true, false, IfOk};
ghost use Rattle.math_num.specs.Word.{IsWord};
ghost use Rattle.vl_ast.specs.declared.expressions.Expr.{Expr};
ghost use Rattle.vl_ast.specs.declared.expressions.Expr.TheVariants.{Unary};
ghost use Rattle.hw_net.specs.declared.netlist.NetOp.TheVariants.{Less, Equal};
ghost use Rattle.vl_emit.specs.inner.Operators.{compared, widened, signed_width, common_width};
ghost use Rattle.vl_emit.specs.inner.Operators.{factor, product_signed, test_of};
ghost use Rattle.vl_emit.specs.inner.Operators.{slice_at, shifted_up};
ghost use Rattle.vl_emit.specs.inner.Pieces.{at_width};
ghost use Rattle.vl_emit.specs.inner.NetItems.{constant, plain_number};
ghost use Rattle.vl_emit.specs.inner.Spoken.{wire_at, CanBeWritten, HasRoom};
ghost use Rattle.vl_emit.specs.inner.Spoken.{CanBeAt, CanBothBeAt, CanBeExpressed};
ghost use Rattle.vl_emit.specs.inner.Spoken.{both_at, product_at, comparison_at, choice_at};
ghost use Rattle.vl_emit.specs.inner.Spoken.{operation_at};

use crate::operands::{Operand, at_width, beside, operand_name, piece, zeros};
use hw_net::NetOp;
use std::alloc::Global;
use vl_ast::{BinOp, Bits128, Expr, Made, ShiftOp, Sized, UnOp, binary, choose, in_box};

/// So many bits without sign.
pub fn plain(width: u32, bits: u128) -> Sized
    ensures { result ≡ plain_number width bits }
{
    Sized {
        width,
        signed: false,
        bits: Bits128::new(bits),
    }
}

/// The bits of a number at a width.
pub fn constant(width: u8, signed: bool, number: i128) -> Sized
    requires { IsWord width signed }
    ensures { result ≡ constant width number }
{
    plain(width as u32, fx_num::to_bits(number, width, signed))
}

fn unary(alloc: Global, op: UnOp, operand: Operand, width: u32) -> Made<Expr>
    requires { CanBeAt operand width }
    ensures { IfOk result (λ e. e ≡ Unary op (at_width width (wire_at operand.entry))) }
{
    vl_ast::unary(alloc, op, at_width(alloc, operand, width))
}

/// An operand at the width at which it is compared.
fn comparand(alloc: Global, signed: bool, operand: Operand, width: u32) -> Made<Expr>
    requires { CanBeAt operand width }
    ensures { IfOk result (λ e. e ≡ compared signed (at_width width (wire_at operand.entry))) }
{
    let part = at_width(alloc, operand, width);
    if !signed {
        return part;
    }
    Ok(Expr::AsSigned(in_box(alloc, part)?))
}

/// `left op right`, each at the width.
fn in_width(alloc: Global, op: BinOp, left: Operand, right: Operand, width: u32) -> Made<Expr>
    requires { CanBothBeAt left right width }
    ensures { IfOk result (λ e. e ≡ both_at op width left.entry right.entry) }
{
    let left = at_width(alloc, left, width);
    let right = at_width(alloc, right, width);
    binary(alloc, op, left, right)
}

/// A bit, which may have wanted memory, at a width.
fn bit_at_width(alloc: Global, width: u32, bit: Made<Expr>) -> Made<Expr>
    requires { 1 ≤ width }
    ensures { (is : Expr) → IfOk bit (λ e. e ≡ is) → IfOk result (λ e. e ≡ widened width is) }
{
    if width == 1 {
        return bit;
    }
    beside(alloc, Ok(zeros(width - 1)), bit)
}

fn signed_width(operand: Operand) -> u32
    requires { CanBeWritten operand }
    ensures is { result ≡ signed_width (wire_at operand.entry) }
    ensures room { HasRoom result }
{
    if operand.signed {
        operand.width
    } else {
        operand.width + 1
    }
}

fn common_width(left: Operand, right: Operand) -> u32
    requires left { CanBeWritten left }
    requires right { CanBeWritten right }
    ensures is { result ≡ common_width (wire_at left.entry) (wire_at right.entry) }
    ensures room { HasRoom result }
{
    if left.signed | right.signed {
        signed_width(left).max(signed_width(right))
    } else {
        left.width.max(right.width)
    }
}

/// One bit that tells whether a net isn't 0.
pub fn test_of(alloc: Global, operand: Operand) -> Made<Expr>
    requires { CanBeWritten operand }
    ensures { IfOk result (λ e. e ≡ test_of (wire_at operand.entry)) }
{
    let name = operand_name(alloc, operand);
    if operand.width == 1 {
        return name;
    }
    binary(alloc, BinOp::NotEqual, name, Ok(zeros(operand.width)))
}

/// Whether a product is of signed numbers.
fn product_signed(left: Operand, right: Operand) -> bool
    ensures { result ≡ product_signed (wire_at left.entry) (wire_at right.entry) }
{
    let several = (1 < left.width) & (1 < right.width);
    (left.signed | right.signed) & several
}

/// A factor of a product of signed numbers, at no more bits than it needs.
fn signed_factor(alloc: Global, operand: Operand, width: u32) -> Made<Expr>
    requires { CanBeAt operand width }
    ensures { IfOk result (λ e. e ≡ factor true width (wire_at operand.entry)) }
{
    if operand.signed & (operand.width <= width) {
        return operand_name(alloc, operand);
    }
    comparand(alloc, true, operand, signed_width(operand).min(width))
}

/// A factor of a product of numbers without sign, at no more bits than it needs.
fn plain_factor(alloc: Global, operand: Operand, width: u32) -> Made<Expr>
    requires { CanBeAt operand width }
    ensures { IfOk result (λ e. e ≡ factor false width (wire_at operand.entry)) }
{
    let most = if operand.signed {
        width
    } else {
        operand.width.min(width)
    };
    at_width(alloc, operand, most)
}

/// The product of two nets, of which each is extended by its context and not by its text: a
/// multiplier is then as wide as its factors.
pub fn product(alloc: Global, left: Operand, right: Operand, width: u32) -> Made<Expr>
    requires { CanBothBeAt left right width }
    ensures { IfOk result (λ e. e ≡ product_at width left.entry right.entry) }
{
    if product_signed(left, right) {
        let one = signed_factor(alloc, left, width);
        let other = signed_factor(alloc, right, width);
        return binary(alloc, BinOp::Multiply, one, other);
    }
    let one = plain_factor(alloc, left, width);
    let other = plain_factor(alloc, right, width);
    binary(alloc, BinOp::Multiply, one, other)
}

fn less(alloc: Global, left: Operand, right: Operand, width: u32) -> Made<Expr>
    requires { CanBothBeAt left right width }
    ensures { IfOk result (λ e. e ≡ comparison_at Less width left.entry right.entry) }
{
    let common = common_width(left, right);
    let signed = left.signed | right.signed;
    let one = comparand(alloc, signed, left, common);
    let other = comparand(alloc, signed, right, common);
    bit_at_width(alloc, width, binary(alloc, BinOp::Less, one, other))
}

fn equal(alloc: Global, left: Operand, right: Operand, width: u32) -> Made<Expr>
    requires { CanBothBeAt left right width }
    ensures { IfOk result (λ e. e ≡ comparison_at Equal width left.entry right.entry) }
{
    let common = common_width(left, right);
    bit_at_width(
        alloc,
        width,
        in_width(alloc, BinOp::Equal, left, right, common),
    )
}

fn choice(alloc: Global, test: Operand, chosen: Operand, other: Operand, width: u32) -> Made<Expr>
    requires test { CanBeWritten test }
    requires both { CanBothBeAt chosen other width }
    ensures { IfOk result (λ e. e ≡ choice_at width test.entry chosen.entry other.entry) }
{
    let test = test_of(alloc, test);
    let chosen = at_width(alloc, chosen, width);
    let other = at_width(alloc, other, width);
    choose(alloc, test, chosen, other)
}

fn shifted_up(alloc: Global, operand: Operand, places: u8, width: u32) -> Made<Expr>
    requires { CanBeAt operand width }
    ensures { IfOk result (λ e. e ≡ shifted_up (wire_at operand.entry) places width) }
{
    if width <= u32::from(places) {
        return Ok(zeros(width));
    }
    let part = in_box(alloc, at_width(alloc, operand, width))?;
    let amount = plain(8, u128::from(places));
    Ok(Expr::Shift(ShiftOp::Left, part, amount))
}

fn slice_at(alloc: Global, width: u32, operand: Operand, high: u32, low: u32) -> Made<Expr>
    requires net { CanBeWritten operand }
    requires width { HasRoom width }
    requires order { low ≤ high }
    requires within { high < operand.width }
    ensures { IfOk result (λ e. e ≡ slice_at width (wire_at operand.entry) low (high + 1 - low)) }
{
    let count = high + 1 - low;
    if width <= count {
        return piece(alloc, operand, low, width);
    }
    let kept = piece(alloc, operand, low, count);
    beside(alloc, Ok(zeros(width - count)), kept)
}

/// An operation on up to three operands, at the width of its result.
pub fn expression(
    alloc: Global,
    op: NetOp,
    port: Operand,
    first: Operand,
    second: Operand,
    third: Operand,
    word: (u8, bool),
) -> Made<Expr>
    requires { CanBeExpressed op port first second third word.0 word.1 }
    ensures { IfOk result (λ e. e ≡ operation_at op word.0 port.entry first.entry second.entry
        third.entry) }
{
    let width = word.0 as u32;
    match op {
        NetOp::Input(_) => at_width(alloc, port, width),
        NetOp::Const(number) => Ok(Expr::Literal(constant(word.0, word.1, number))),
        NetOp::Resize => at_width(alloc, first, width),
        NetOp::ShiftUp(places) => shifted_up(alloc, first, places, width),
        NetOp::ShiftDown(places) => piece(alloc, first, places as u32, width),
        NetOp::Add => in_width(alloc, BinOp::Add, first, second, width),
        NetOp::Subtract => in_width(alloc, BinOp::Subtract, first, second, width),
        NetOp::Negate => unary(alloc, UnOp::Negate, first, width),
        NetOp::Multiply => product(alloc, first, second, width),
        NetOp::And => in_width(alloc, BinOp::And, first, second, width),
        NetOp::Or => in_width(alloc, BinOp::Or, first, second, width),
        NetOp::Xor => in_width(alloc, BinOp::Xor, first, second, width),
        NetOp::Not => unary(alloc, UnOp::Invert, first, width),
        NetOp::Less => less(alloc, first, second, width),
        NetOp::Equal => equal(alloc, first, second, width),
        NetOp::Choose => choice(alloc, first, second, third, width),
        NetOp::Slice { high, low } => slice_at(alloc, width, first, high as u32, low as u32),
    }
}
