//! Bytes that are written by a backslash.

use crate::lines::write_result;
use anyhow::{Error, Result};
use std::alloc::Global;
use std::io::Write;

/// What was begun by a backslash.
#[derive(Clone, Copy)]
enum Begun {
    Nothing,
    Letter,
    Digits,
    Second(u8),
}

/// The bytes that a part stands for.
pub fn part_bytes(alloc: Global, part: &str) -> Result<Vec<u8>> {
    let mut bytes = Vec::new(alloc);
    let mut begun = Begun::Nothing;
    for letter in part.as_bytes() {
        begun = take(&mut bytes, begun, *letter)?;
    }
    Ok(bytes)
}

/// Takes a letter, and gives what is begun then.
fn take(bytes: &mut Vec<u8>, begun: Begun, letter: u8) -> Result<Begun> {
    let byte = match (begun, letter) {
        (Begun::Nothing, b'\\') => return Ok(Begun::Letter),
        (Begun::Nothing, byte) => byte,
        (Begun::Letter, b'n') => b'\n',
        (Begun::Letter, b't') => b'\t',
        (Begun::Letter, b'r') => b'\r',
        (Begun::Letter, b'\\') => b'\\',
        (Begun::Letter, b'x') => return Ok(Begun::Digits),
        (Begun::Letter, _) => return Err(Error::msg("no escape")),
        (Begun::Digits, high) => return Ok(Begun::Second(digit(high)?)),
        (Begun::Second(high), low) => high.wrapping_mul(16).wrapping_add(digit(low)?),
    };
    bytes.push(byte)?;
    Ok(Begun::Nothing)
}

/// The number of a digit to the base 16.
fn digit(letter: u8) -> Result<u8> {
    match letter {
        b'0'..=b'9' => Ok(letter.wrapping_sub(b'0')),
        b'a'..=b'f' => Ok(letter.wrapping_sub(b'a').wrapping_add(10)),
        _ => Err(Error::msg("no digit")),
    }
}

/// Writes bytes on one line: letters, digits, signs and spaces as they are, and others by their
/// numbers.
pub fn put_escaped<W: Write>(out: &mut W, bytes: &[u8]) -> Result<()> {
    for byte in bytes {
        put_byte(out, *byte)?;
    }
    Ok(())
}

fn put_byte<W: Write>(out: &mut W, byte: u8) -> Result<()> {
    let letter = match byte {
        b'\n' => b'n',
        b'\t' => b't',
        b'\r' => b'r',
        b'\\' => b'\\',
        b' '..=b'~' => return write_result(out.write_all(&[byte])),
        _ => return write_result(write!(out, "\\x{byte:02x}")),
    };
    write_result(out.write_all(&[b'\\', letter]))
}
