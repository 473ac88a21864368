//! Words of bits.
ghost use Rattle.std.specs.Prelude.{◌≤◌, IfOk};
ghost use Rattle.math_num.specs.Word.{IsWord};

use anyhow::{Error, Result};
use fx_num::{fits, from_bits, is_word, shift_up, to_bits, wrap};
use std::io::Write;
use tests_rows::{Row, write_result};

/// A width, and whether there is a sign.
#[derive(Clone, Copy)]
struct Word {
    width: u8,
    signed: bool,
}

fn word_of(words: &mut Row<'_>) -> Result<Word>
    ensures { IfOk result (λ word. IsWord word.width word.signed) }
{
    let signed = words.one_of(&[("s", true), ("u", false)])?;
    let width = words.byte()?;
    if is_word(width, signed) {
        Ok(Word { width, signed })
    } else {
        Err(Error::msg("no word"))
    }
}

/// What is told of a number and a word.
#[derive(Clone, Copy)]
pub enum Asked {
    Wrap,
    Fits,
    ToBits,
    FromBits,
}

/// Tells what becomes of a number and a word.
pub fn in_word<W: Write>(asked: Asked, words: &mut Row<'_>, out: &mut W) -> Result<()> {
    let v = words.integer()?;
    let Word { width, signed } = word_of(words)?;
    match asked {
        Asked::Wrap => write_result(writeln!(out, "{}", wrap(v, width, signed))),
        Asked::Fits => write_result(writeln!(out, "{}", fits(v, width, signed))),
        Asked::ToBits => put_bits(v, width, signed, out),
        Asked::FromBits => put_number(v, width, signed, out),
    }
}

fn put_bits<W: Write>(v: i128, width: u8, signed: bool, out: &mut W) -> Result<()>
    requires { IsWord width signed }
{
    if fits(v, width, signed) {
        write_result(writeln!(out, "{}", to_bits(v, width, signed)))
    } else {
        Err(Error::msg("the number leaves its word"))
    }
}

/// Tells the number of a word that has these bits, which are those of a byte.
fn put_number<W: Write>(bits: i128, width: u8, signed: bool, out: &mut W) -> Result<()>
    requires { IsWord width signed }
{
    let Ok(bits) = u8::try_from(bits) else {
        return Err(Error::msg("no byte"));
    };
    if width < 8 {
        return Err(Error::msg("the bits may leave their word"));
    }
    write_result(writeln!(out, "{}", of_byte(bits, width, signed)))
}

/// The number of a word of a byte or more that has these bits.
fn of_byte(bits: u8, width: u8, signed: bool) -> i128
    requires word { IsWord width signed }
    requires wide { 8 ≤ width }
{
    from_bits(u128::from(bits), width, signed)
}

pub fn put_shift<W: Write>(words: &mut Row<'_>, out: &mut W) -> Result<()> {
    let v = words.integer()?;
    let by = words.number()?;
    match shift_up(v, by) {
        Some(r) => write_result(writeln!(out, "{r}")),
        None => write_result(out.write_all(b"None\n")),
    }
}
