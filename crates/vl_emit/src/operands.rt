//! Nets and ports as operands of expressions, each written at the width at which it is used.
ghost use Rattle.std.specs.Prelude.{◌≡◌, ◌+◌, ◌≤◌, ◌<◌, [], ◌∷◌, ◌++◌, IfOk};
ghost use Rattle.vl_ast.specs.declared.expressions.Expr.{Expr};
ghost use Rattle.vl_ast.specs.declared.expressions.Expr.TheVariants.{Name, Concat};
ghost use Rattle.std.specs.Fmt.{decimal};
ghost use Rattle.vl_emit.specs.inner.Pieces.{zeros, fill, inside, piece, at_width};
ghost use Rattle.vl_emit.specs.inner.Spoken.{called_text, wire_at, CanBeAt};

use fx_io::Text;
use itoa::Buffer;
use std::alloc::Global;
use vl_ast::{Bits128, Expr, Made, Sized, begin, concat, in_box, named, put_expression};

/// How a net or a port is called in the module.
#[derive(Clone, Copy)]
pub enum Called<'a> {
    /// A net without a label, by its number.
    Number(usize),
    /// A net by its label, or a port by its name.
    Named(&'a [u8]),
}

/// A net or a port that an expression reads, with its word.
#[derive(Clone, Copy)]
pub struct Operand<'a> {
    pub called: Called<'a>,
    pub width: u32,
    pub signed: bool,
}

/// The name as a text.
pub fn text_of(alloc: Global, called: Called) -> Made<Text>
    ensures { IfOk result (λ text. text ≡ called_text called.entry) }
{
    match called {
        Called::Number(number) => numbered(alloc, b"fx_n", number),
        Called::Named(name) => Text::copy(alloc, name),
    }
}

/// A name that ends with a number: that of a net without a label begins with `fx_n`, and that of
/// the register that holds a bridge's value with `fx_h`.
pub fn numbered(alloc: Global, front: &[u8], number: usize) -> Made<Text>
    ensures { IfOk result (λ text. text ≡ front.now ++ decimal number) }
{
    let mut buffer = Buffer::new();
    let digits = buffer.format(number).as_bytes();
    Text::copy(alloc, front)?.append(alloc, digits)
}

/// An operand by its name.
pub fn operand_name(alloc: Global, operand: Operand) -> Made<Expr>
    ensures { IfOk result (λ e. e ≡ Name (wire_at operand.entry).name) }
{
    named(text_of(alloc, operand.called))
}

/// So many zeros.
pub fn zeros(width: u32) -> Expr
    ensures { result ≡ zeros width }
{
    Expr::Literal(Sized {
        width,
        signed: false,
        bits: Bits128::new(0),
    })
}

fn fill(alloc: Global, operand: Operand, count: u32) -> Made<Expr>
    requires { 1 ≤ operand.width }
    ensures { IfOk result (λ e. e ≡ fill (wire_at operand.entry) count) }
{
    if !operand.signed {
        return Ok(zeros(count));
    }
    let sign = Expr::Bit(text_of(alloc, operand.called)?, operand.width - 1);
    Ok(Expr::Repeat(count, in_box(alloc, Ok(sign))?))
}

fn inside(alloc: Global, operand: Operand, low: u32, width: u32) -> Made<Expr>
    requires some { 1 ≤ width }
    requires within { low + width ≤ operand.width }
    ensures { IfOk result (λ e. e ≡ inside (wire_at operand.entry) low width) }
{
    let name = text_of(alloc, operand.called)?;
    if width == operand.width {
        return Ok(Expr::Name(name));
    }
    Ok(Expr::Part(name, low + width - 1, low))
}

/// Two expressions side by side, each of which may have wanted memory.
pub fn beside(alloc: Global, left: Made<Expr>, right: Made<Expr>) -> Made<Expr>
    ensures { (one other : Expr) → IfOk left (λ e. e ≡ one) → IfOk right (λ e. e ≡ other)
        → IfOk result (λ e. e ≡ Concat (one ∷ other ∷ [])) }
{
    let mut parts = begin(alloc);
    put_expression(&mut parts, left);
    put_expression(&mut parts, right);
    concat(parts)
}

/// So many bits of an operand from a place up.
pub fn piece(alloc: Global, operand: Operand, low: u32, width: u32) -> Made<Expr>
    requires net { 1 ≤ operand.width }
    requires some { 1 ≤ width }
    requires near { low < 256 }
    requires most { width ≤ 128 }
    ensures { IfOk result (λ e. e ≡ piece (wire_at operand.entry) low width) }
{
    if operand.width <= low {
        return fill(alloc, operand, width);
    }
    if low + width <= operand.width {
        return inside(alloc, operand, low, width);
    }
    let left = fill(alloc, operand, low + width - operand.width);
    let right = inside(alloc, operand, low, operand.width - low);
    beside(alloc, left, right)
}

/// An operand at the width at which it is used.
pub fn at_width(alloc: Global, operand: Operand, width: u32) -> Made<Expr>
    requires { CanBeAt operand width }
    ensures { IfOk result (λ e. e ≡ at_width width (wire_at operand.entry)) }
{
    piece(alloc, operand, 0, width)
}
