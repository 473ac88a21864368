ghost use Rattle.std.specs.Prelude.{◌++◌, map, codes, decimal};
ghost use Rattle.vl_ast.specs.Spelling.{joined, expr_text, sized_text};
ghost use Rattle.vl_write.specs.inner.Puts.{Puts};

use crate::parts::{Writer, put, put_between, put_sized};
use vl_ast::{Expr, Sized};

fn put_bit(out: &mut Writer, name: &[u8], place: u32)
    ensures { Puts out.old out.new (name.now ++ codes " [" ++ decimal place ++ codes "]") }
{
    put(out, name);
    put_between(out, b" [", place, b"]");
}

fn put_part(out: &mut Writer, name: &[u8], high: u32, low: u32)
    ensures { Puts out.old out.new
        (name.now ++ codes " [" ++ decimal high ++ codes ":" ++ decimal low ++ codes "]") }
{
    put(out, name);
    put_between(out, b" [", high, b":");
    put_between(out, b"", low, b"]");
}

fn put_amount(out: &mut Writer, operator: &[u8], amount: &Sized)
    ensures { Puts out.old out.new
        (operator.now ++ (codes " " ++ (sized_text amount.now ++ codes ")"))) }
{
    put(out, operator);
    put(out, b" ");
    put_sized(out, amount);
    put(out, b")");
}

/// Puts an expression. The recursion is as deep as the expression nests.
#[cycle(expression)]
fn put_expr(out: &mut Writer, e: &Expr)
    ensures { Puts out.old out.new (expr_text e.now) }
{
    match e {
        Expr::Name(name) => put(out, name.bytes()),
        Expr::Bit(name, place) => put_bit(out, name.bytes(), *place),
        Expr::Part(name, high, low) => put_part(out, name.bytes(), *high, *low),
        Expr::Literal(number) => put_sized(out, number),
        Expr::Concat(parts) => {
            put(out, b"{");
            put_parts(out, parts.as_slice());
        }
        Expr::Repeat(count, part) => {
            put_between(out, b"{", *count, b" {");
            put_within(out, b"", part.get(), b"}}");
        }
        Expr::AsSigned(part) => put_within(out, b"$signed (", part.get(), b")"),
        Expr::AsUnsigned(part) => put_within(out, b"$unsigned (", part.get(), b")"),
        Expr::Unary(op, part) => {
            put(out, b"(");
            put(out, op.text());
            put_within(out, b" ", part.get(), b")");
        }
        Expr::Binary(op, left, right) => {
            put_within(out, b"(", left.get(), b" ");
            put(out, op.text());
            put_within(out, b" ", right.get(), b")");
        }
        Expr::Shift(op, part, amount) => {
            put_within(out, b"(", part.get(), b" ");
            put_amount(out, op.text(), amount);
        }
        Expr::Choose(test, chosen, other) => {
            put_within(out, b"(", test.get(), b" ? ");
            put_within(out, b"", chosen.get(), b" : ");
            put_within(out, b"", other.get(), b")");
        }
    }
}

/// Puts an expression between two texts.
#[cycle(expression)]
pub fn put_within(out: &mut Writer, before: &[u8], e: &Expr, after: &[u8])
    ensures { Puts out.old out.new (before.now ++ (expr_text e.now ++ after.now)) }
{
    put(out, before);
    put_expr(out, e);
    put(out, after);
}

/// Puts the parts of one expression, and its end behind them.
#[cycle(expression)]
fn put_parts(out: &mut Writer, parts: &[Expr])
    ensures { Puts out.old out.new
        (joined (codes ", ") (map expr_text parts.now) ++ codes "}") }
{
    let mut before: &[u8] = b"";
    for part in parts {
        put_within(out, before, part, b"");
        before = b", ";
    }
    put(out, b"}");
}
