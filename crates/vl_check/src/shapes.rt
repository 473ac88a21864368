ghost use Rattle.std.specs.Prelude.{◌≡◌, ◌≤◌, ◌<◌, ◌^◌, ◌*◌, ◌+◌, true, false, Option, Some, None, if◌then◌else◌, nat_lt, option_and_then, option_map};
ghost use Rattle.vl_ast.specs.Conditions.{is_number, is_width};
ghost use Rattle.vl_check.specs.Scope.{nets_in};
ghost use Rattle.vl_ast.specs.declared.expressions.Expr.TheVariants.{Concat};
ghost use Rattle.vl_check.specs.Shape.{binary_shape, bit_shape, choice_shape, literal_shape, narrow, net_of, part_shape, shape_in, shape_of, unary_shape, with_both};

use crate::scope::Scope;
use vl_ast::{BinOp, Expr, Sized, UnOp};

/// The most bits that a net or a context has (own).
const MOST_BITS: u32 = 128;

/// The length and the sign of an expression by itself (IEEE 1364-2005, 5.4.1 and 5.5.1).
#[derive(Clone, Copy)]
pub struct Shape {
    /// How many bits it has.
    pub length: u32,
    /// Whether all operands that share its context are signed.
    pub signed: bool,
}

/// A shape of at most 128 bits.
fn narrow(length: u64, signed: bool) -> Option<Shape>
    ensures { result ≡ narrow length signed }
{
    if length <= 128 {
        Some(Shape {
            length: length as u32,
            signed,
        })
    } else {
        None
    }
}

pub fn is_width(width: u32) -> bool
    ensures { result ≡ is_width width }
{
    1 <= width && width <= MOST_BITS
}

/// Whether so many bits hold the number.
fn fits_width(bits: u128, width: u32) -> bool
    requires { width ≤ 128 }
    ensures { result ≡ nat_lt bits (2 ^ width) }
{
    if width == MOST_BITS {
        true
    } else {
        bits < 1 << width
    }
}

/// Whether the number has 1 to 128 bits and no digits past its width.
pub fn is_number(number: &Sized) -> bool
    ensures { result ≡ is_number number.now }
{
    let Sized {
        width,
        signed: _,
        bits,
    } = *number;
    is_width(width) && fits_width(bits.get(), width)
}

fn unary_shape(op: UnOp, part: Option<Shape>) -> Option<Shape>
    ensures { result ≡ option_map (unary_shape op) part }
{
    let Some(part) = part else {
        return None;
    };
    match op {
        UnOp::Negate | UnOp::Invert => Some(part),
        UnOp::IsZero => Some(Shape {
            length: 1,
            signed: false,
        }),
    }
}

fn binary_shape(op: BinOp, left: Option<Shape>, right: Option<Shape>) -> Option<Shape>
    ensures { result ≡ with_both (binary_shape op) left right }
{
    let Some(left) = left else {
        return None;
    };
    let Some(right) = right else {
        return None;
    };
    match op {
        BinOp::Add | BinOp::Subtract | BinOp::Multiply | BinOp::And | BinOp::Or | BinOp::Xor =>
            Some(Shape {
                length: left.length.max(right.length),
                signed: left.signed && right.signed,
            }),
        BinOp::Equal
        | BinOp::NotEqual
        | BinOp::Less
        | BinOp::LessEqual
        | BinOp::Greater
        | BinOp::GreaterEqual
        | BinOp::Both
        | BinOp::Either => Some(Shape {
            length: 1,
            signed: false,
        }),
    }
}

/// The shape of a cast.
fn cast_shape(part: Option<Shape>, signed: bool) -> Option<Shape>
    ensures { result ≡ option_map (λ s. shape_of s.length signed) part }
{
    let Some(part) = part else {
        return None;
    };
    Some(Shape {
        length: part.length,
        signed,
    })
}

fn repeat_shape(count: u32, part: Option<Shape>) -> Option<Shape>
    ensures { result ≡ (if nat_lt 0 count then option_and_then
        (λ s. narrow (count * s.length) false) part else None) }
{
    let Some(part) = part else {
        return None;
    };
    if count == 0 {
        return None;
    }
    narrow(u64::from(count) * u64::from(part.length), false)
}

fn shift_shape(part: Option<Shape>, amount: &Sized) -> Option<Shape>
    ensures { result ≡ (if is_number amount.now then part else None) }
{
    if is_number(amount) { part } else { None }
}

fn choice_shape(test: Option<Shape>, chosen: Option<Shape>, other: Option<Shape>) -> Option<Shape>
    ensures { result ≡ choice_shape test chosen other }
{
    let Some(_test) = test else {
        return None;
    };
    let Some(chosen) = chosen else {
        return None;
    };
    let Some(other) = other else {
        return None;
    };
    Some(Shape {
        length: chosen.length.max(other.length),
        signed: chosen.signed && other.signed,
    })
}

/// The width and the sign of a name's declaration, and no bits where it has none.
pub fn net(scope: &Scope<'_>, name: &[u8]) -> Shape
    ensures { net_of result ≡ nets_in scope.now name.now }
{
    match scope.declaration(name) {
        None => Shape {
            length: 0,
            signed: false,
        },
        Some(declared) => Shape {
            length: declared.width,
            signed: declared.signed,
        },
    }
}

fn name_shape(scope: &Scope<'_>, name: &[u8]) -> Option<Shape>
    ensures { result ≡ narrow (nets_in scope.now name.now).width
        (nets_in scope.now name.now).signed }
{
    let net = net(scope, name);
    narrow(u64::from(net.length), net.signed)
}

fn bit_shape(scope: &Scope<'_>, name: &[u8], place: u32) -> Option<Shape>
    ensures { result ≡ bit_shape (nets_in scope.now name.now) place }
{
    let width = net(scope, name).length;
    if 1 < width && place < width {
        Some(Shape {
            length: 1,
            signed: false,
        })
    } else {
        None
    }
}

fn part_shape(scope: &Scope<'_>, name: &[u8], high: u32, low: u32) -> Option<Shape>
    ensures { result ≡ part_shape (nets_in scope.now name.now) high low }
{
    let width = net(scope, name).length;
    if 1 < width && low <= high && high < width {
        narrow(u64::from(high - low) + 1, false)
    } else {
        None
    }
}

fn literal_shape(number: &Sized) -> Option<Shape>
    ensures { result ≡ literal_shape number.now }
{
    if is_number(number) {
        Some(Shape {
            length: number.width,
            signed: number.signed,
        })
    } else {
        None
    }
}

/// The shape of an expression. `None` where a select, a number or a repetition in it is faulty or a
/// context is longer than 128 bits. The recursion is as deep as the expression nests.
#[cycle(sound_shape)]
pub fn sound_shape(scope: &Scope<'_>, e: &Expr) -> Option<Shape>
    ensures { result ≡ shape_in (nets_in scope.now) e.now }
{
    match e {
        Expr::Name(name) => name_shape(scope, name.bytes()),
        Expr::Bit(name, place) => bit_shape(scope, name.bytes(), *place),
        Expr::Part(name, high, low) => part_shape(scope, name.bytes(), *high, *low),
        Expr::Literal(number) => literal_shape(number),
        Expr::Concat(parts) => concat_shape(scope, parts.as_slice()),
        Expr::Repeat(count, part) => repeat_shape(*count, sound_shape(scope, part.get())),
        Expr::AsSigned(part) => cast_shape(sound_shape(scope, part.get()), true),
        Expr::AsUnsigned(part) => cast_shape(sound_shape(scope, part.get()), false),
        Expr::Unary(op, part) => unary_shape(*op, sound_shape(scope, part.get())),
        Expr::Binary(op, left, right) => {
            binary_shape(
                *op,
                sound_shape(scope, left.get()),
                sound_shape(scope, right.get()),
            )
        }
        Expr::Shift(_op, part, amount) => shift_shape(sound_shape(scope, part.get()), amount),
        Expr::Choose(test, chosen, other) => choice_shape(
            sound_shape(scope, test.get()),
            sound_shape(scope, chosen.get()),
            sound_shape(scope, other.get()),
        ),
    }
}

#[cycle(sound_shape)]
fn concat_shape(scope: &Scope<'_>, parts: &[Expr]) -> Option<Shape>
    ensures { result ≡ shape_in (nets_in scope.now) (Concat parts.now) }
{
    let mut length: u64 = 0;
    for part in parts {
        let Some(shape) = sound_shape(scope, part) else {
            return None;
        };
        length += u64::from(shape.length);
        if length > 128 {
            return None;
        }
    }
    narrow(length, false)
}
