//! The words of a line.
ghost use Rattle.std.specs.Prelude.{IfOk};
ghost use Rattle.fx_type.specs.FxType.{IsType, InRange};

use anyhow::{Error, Result};
use fx_type::{FxType, Rounding};
use mdl_values::read_rounding;
use tests_rows::Row;

/// A stored integer and its type.
#[derive(Clone, Copy)]
pub struct Operand {
    pub kind: FxType,
    pub value: i128,
}

/// How a result is converted.
#[derive(Clone, Copy)]
pub struct End {
    pub kind: FxType,
    pub rounding: Rounding,
    pub saturate: bool,
}

/// Whether a sign is a minus.
pub fn minus(words: &mut Row<'_>) -> Result<bool> {
    words.one_of(&[("+", false), ("-", true)])
}

fn any_type(words: &mut Row<'_>) -> Result<FxType> {
    let signed = match words.next()? {
        "L" => return Ok(FxType::Logical),
        "s" => true,
        "u" => false,
        _ => return Err(Error::msg("no type")),
    };
    let width = words.byte()?;
    let frac = words.next()?.parse::<i16>()?;
    Ok(FxType::Num {
        signed,
        width,
        frac,
    })
}

pub fn valid_type(words: &mut Row<'_>) -> Result<FxType>
    ensures { IfOk result (λ kind. IsType kind) }
{
    let kind = any_type(words)?;
    if kind.is_valid() {
        Ok(kind)
    } else {
        Err(Error::msg("no valid type"))
    }
}

/// An operand in the range of its type.
pub fn read_operand(words: &mut Row<'_>) -> Result<Operand>
    ensures { IfOk result (λ operand. IsType operand.kind
        × InRange operand.kind operand.value) }
{
    let kind = valid_type(words)?;
    let value = words.integer()?;
    in_type(kind, value)
}

/// An operand behind its sign; true where it is subtracted.
pub fn read_term(words: &mut Row<'_>) -> Result<(bool, Operand)>
    ensures { IfOk result (λ term. IsType term.1.kind × InRange term.1.kind term.1.value) }
{
    let subtracted = minus(words)?;
    let operand = read_operand(words)?;
    Ok((subtracted, operand))
}

pub fn read_end(words: &mut Row<'_>) -> Result<End>
    ensures { IfOk result (λ end. IsType end.kind) }
{
    let kind = valid_type(words)?;
    let rounding = word_value(read_rounding(words.next()?.as_bytes()))?;
    let saturate = words.one_of(&[("on", true), ("off", false)])?;
    Ok(End {
        kind,
        rounding,
        saturate,
    })
}

/// What a word stands for, where it stands for anything.
pub fn word_value<T: Copy>(read: Option<T>) -> Result<T> {
    match read {
        Some(value) => Ok(value),
        None => Err(Error::msg("no such word")),
    }
}

/// The number of a type, where it is in range.
pub fn in_type(kind: FxType, value: i128) -> Result<Operand>
    requires { IsType kind }
    ensures { IfOk result (λ operand. IsType operand.kind × InRange operand.kind operand.value) }
{
    if value < kind.lowest() || value > kind.highest() {
        Err(Error::msg("out of range"))
    } else {
        Ok(Operand { kind, value })
    }
}
