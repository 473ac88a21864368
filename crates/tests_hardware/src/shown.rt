use anyhow::Result;
use fx_io::Text;
use std::fmt::Write;
use vl_ast::{Attrs, Expr, ModItem, Module, Sized};

fn put_text(out: &mut String, text: &Text) -> Result<()> {
    out.push_str(str::from_utf8(text.bytes())?)?;
    Ok(())
}

fn sign(signed: bool) -> char {
    if signed { 's' } else { 'u' }
}

/// A number with its base, as `16s7`.
fn put_sized(out: &mut String, number: &Sized) -> Result<()> {
    let Sized {
        width,
        signed,
        bits,
    } = *number;
    let bits = bits.get();
    let sign = sign(signed);
    write!(out, "{width}{sign}{bits}")?;
    Ok(())
}

/// An expression, as `(Add a b.3)`: the name of its form before its parts.
#[cycle(shown)]
fn put_expr(out: &mut String, e: &Expr) -> Result<()> {
    match e {
        Expr::Name(name) => put_text(out, name),
        Expr::Bit(name, place) => {
            put_text(out, name)?;
            write!(out, ".{place}")?;
            Ok(())
        }
        Expr::Part(name, high, low) => {
            put_text(out, name)?;
            write!(out, ".{high}.{low}")?;
            Ok(())
        }
        Expr::Literal(number) => put_sized(out, number),
        _ => {
            out.push('(')?;
            put_compound(out, e)?;
            out.push(')')?;
            Ok(())
        }
    }
}

/// What stands between the parentheses.
#[cycle(shown)]
fn put_compound(out: &mut String, e: &Expr) -> Result<()> {
    match e {
        Expr::Concat(parts) => {
            out.push_str("Concat")?;
            put_parts(out, parts.as_slice())
        }
        Expr::Repeat(count, part) => {
            write!(out, "Repeat {count}")?;
            put_part(out, part.get())
        }
        Expr::AsSigned(part) => put_cast(out, "Signed", part.get()),
        Expr::AsUnsigned(part) => put_cast(out, "Unsigned", part.get()),
        Expr::Unary(op, part) => {
            write!(out, "{op:?}")?;
            put_part(out, part.get())
        }
        Expr::Binary(op, left, right) => {
            write!(out, "{op:?}")?;
            put_part(out, left.get())?;
            put_part(out, right.get())
        }
        Expr::Shift(op, part, amount) => {
            write!(out, "{op:?}")?;
            put_part(out, part.get())?;
            out.push(' ')?;
            put_sized(out, amount)
        }
        Expr::Choose(test, chosen, other) => {
            out.push_str("Choose")?;
            put_part(out, test.get())?;
            put_part(out, chosen.get())?;
            put_part(out, other.get())
        }
        Expr::Name(_) | Expr::Bit(_, _) | Expr::Part(_, _, _) | Expr::Literal(_) => Ok(()),
    }
}

#[cycle(shown)]
fn put_cast(out: &mut String, word: &str, e: &Expr) -> Result<()> {
    out.push_str(word)?;
    put_part(out, e)
}

#[cycle(shown)]
fn put_part(out: &mut String, e: &Expr) -> Result<()> {
    out.push(' ')?;
    put_expr(out, e)
}

#[cycle(shown)]
fn put_parts(out: &mut String, parts: &[Expr]) -> Result<()> {
    for part in parts {
        put_part(out, part)?;
    }
    Ok(())
}

fn put_attrs(out: &mut String, attrs: &Attrs) -> Result<()> {
    for attr in attrs.as_slice() {
        out.push(' ')?;
        put_text(out, &attr.name)?;
        let value = attr.value;
        write!(out, "={value}")?;
    }
    Ok(())
}

/// The width, the sign and the name of a port or a net.
fn put_net(out: &mut String, signed: bool, width: u32, name: &Text) -> Result<()> {
    let sign = sign(signed);
    write!(out, "{width}{sign} ")?;
    put_text(out, name)
}

/// The word with which an item begins.
fn word_of(item: &ModItem) -> &'static str {
    match item {
        ModItem::Wire { .. } => "wire ",
        ModItem::Reg { .. } => "reg ",
        ModItem::Assign { .. } => "assign ",
        ModItem::Always { .. } => "always ",
    }
}

fn put_item(out: &mut String, item: &ModItem) -> Result<()> {
    out.push_str(word_of(item))?;
    match item {
        ModItem::Wire {
            signed,
            width,
            name,
        }
        | ModItem::Reg {
            signed,
            width,
            name,
        } => put_net(out, *signed, *width, name),
        ModItem::Assign { name, value } => {
            put_text(out, name)?;
            put_part(out, value)
        }
        ModItem::Always {
            name,
            first,
            condition,
            value,
        } => put_always(out, name, first, condition, value),
    }
}

fn put_always(
    out: &mut String,
    name: &Text,
    first: &Sized,
    condition: &Option<Expr>,
    value: &Expr,
) -> Result<()> {
    put_text(out, name)?;
    out.push(' ')?;
    put_sized(out, first)?;
    match condition {
        None => out.push_str(" else")?,
        Some(condition) => {
            out.push_str(" if")?;
            put_part(out, condition)?;
        }
    }
    put_part(out, value)
}

/// A module: its name and attributes on a line, then each port and each item on a line.
pub fn put_shown(out: &mut String, module: &Module) -> Result<()> {
    out.push_str("module ")?;
    put_text(out, &module.name)?;
    put_attrs(out, &module.attrs)?;
    out.push('\n')?;
    for port in module.ports.as_slice() {
        out.push_str(if port.input { "in " } else { "out " })?;
        put_net(out, port.signed, port.width, &port.name)?;
        put_attrs(out, &port.attrs)?;
        out.push('\n')?;
    }
    for item in module.items.as_slice() {
        put_item(out, item)?;
        out.push('\n')?;
    }
    Ok(())
}
