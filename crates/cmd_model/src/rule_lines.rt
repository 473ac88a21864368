//! The line that tells a broken rule.
ghost use Rattle.std.specs.Prelude.{◌≡◌, ◌≤◌, [], ◌∷◌, ◌++◌, IfOk, IsTrue, OnOk, length, map, slice_index_or, take};
ghost use Rattle.std.specs.Fmt.{signed_decimal};
ghost use Rattle.std.specs.List.{flat_map};
ghost use Rattle.cmd_model.specs.inner.Values.{value_text};
ghost use Rattle.cmd_model.specs.RuleLine.{cycle_text, period_text, place_text, quoted_byte, quoted_path, rule_line, shown_text};

use dg_model::{Block, Path, RuleFault, Shown};
use fx_io::{OutOfMemory, Text};
use fx_text::{push, push_number};
use itoa::Buffer;
use std::alloc::Global;

/// The line of a broken rule; the blocks are those whose numbers it may show.
pub fn rule_text(alloc: Global, fault: &RuleFault, blocks: &[Block]) -> Result<Text, OutOfMemory>
    ensures { IfOk result (λ text. text ≡ rule_line (map
        (λ block. block.path) blocks.now) fault.now) }
{
    let mut line = Vec::new(alloc);
    let number = Value::Number(u64::from(fault.rule.number()));
    push_value(&mut line, b"rule ", number, blocks)?;
    push_value(&mut line, b" (", Value::Bytes(fault.rule.word()), blocks)?;
    push_value(&mut line, b"): ", Value::Place(fault.place.bytes()), blocks)?;
    push_shown(&mut line, &fault.shown, blocks)?;
    push(&mut line, b"\n")?;
    Text::from_vec(alloc, line)
}

/// Adds a number in decimal, with a minus where it is below 0.
fn push_signed(line: &mut Vec<u8>, number: i64) -> Result<(), OutOfMemory>
    ensures { OnOk result (line.new.items ≡ line.old.items ++ signed_decimal number) }
{
    let mut digits = Buffer::new();
    push(line, digits.format(number).as_bytes())
}

/// Adds a path between quotes, with what would break a line escaped (own).
fn push_quoted(line: &mut Vec<u8>, path: &[u8]) -> Result<(), OutOfMemory>
    ensures { OnOk result (line.new.items ≡ line.old.items ++ quoted_path path.now) }
{
    push(line, b"\"")?;
    push_escaped(line, path)?;
    push(line, b"\"")
}

/// Adds the path of a block in the same way.
pub fn push_path(line: &mut Vec<u8>, path: &Path) -> Result<(), OutOfMemory>
    ensures { OnOk result (line.new.items ≡ line.old.items ++ quoted_path path.now) }
{
    let path = path.text(*line.allocator())?;
    push_quoted(line, path.bytes())
}

/// Adds bytes of a name as they stand between quotes.
fn push_escaped(line: &mut Vec<u8>, path: &[u8]) -> Result<(), OutOfMemory>
    ensures { OnOk result (line.new.items ≡ line.old.items ++ flat_map quoted_byte path.now) }
{
    for byte in path {
        let (bytes, count) = quoted_byte(*byte);
        push(line, &bytes[..count])?;
    }
    Ok(())
}

/// The digits of numbers in base sixteen.
const HEX_DIGITS: &[u8; 16] = b"0123456789abcdef";

/// Whether a byte of a name stands between quotes as it is.
fn is_plain(byte: u8) -> bool
    ensures { IsTrue result → quoted_byte byte ≡ byte ∷ [] }
{
    byte >= 32 && byte != 127 && byte != b'"' && byte != b'\\'
}

/// How many bytes of a name, from the first on, stand between quotes as they are.
#[tactic(auto, using(crate::proofs::Plain::plain_more))]
pub fn plain_front(name: &[u8]) -> usize
    ensures within { result ≤ length name.now }
    ensures plain { flat_map quoted_byte (take result name.now) ≡ take result name.now }
{
    let mut count = 0;
    while count < name.len() && is_plain(name[count]) {
        count += 1;
    }
    count
}

/// A byte of a name as it stands between quotes: the first bytes of these, and how many.
pub fn quoted_byte(byte: u8) -> ([u8; 4], usize)
    ensures within { result.1 ≤ 4 }
    ensures is { take result.1 result.0 ≡ quoted_byte byte }
{
    match byte {
        b'\n' => ([b'\\', b'n', 0, 0], 2),
        b'\t' => ([b'\\', b't', 0, 0], 2),
        b'"' | b'\\' => ([b'\\', byte, 0, 0], 2),
        0..=31 | 127 => {
            let high = HEX_DIGITS[usize::from(byte / 16)];
            let low = HEX_DIGITS[usize::from(byte % 16)];
            ([b'\\', b'x', high, low], 4)
        }
        _ => ([byte, 0, 0, 0], 1),
    }
}

/// Adds the place of a broken rule.
fn push_place(line: &mut Vec<u8>, path: &[u8]) -> Result<(), OutOfMemory>
    ensures { OnOk result (line.new.items ≡ line.old.items ++ place_text path.now) }
{
    if path.is_empty() {
        push(line, b"model")
    } else {
        push_quoted(line, path)
    }
}

/// Adds a period.
fn push_period(line: &mut Vec<u8>, period: u32) -> Result<(), OutOfMemory>
    ensures { OnOk result (line.new.items ≡ line.old.items ++ period_text period) }
{
    if period == 0 {
        push(line, b"inf")
    } else {
        push_number(line, u64::from(period))
    }
}

/// Adds the paths of blocks, each behind a space.
fn push_cycle(line: &mut Vec<u8>, numbers: &[u32], blocks: &[Block]) -> Result<(), OutOfMemory>
    ensures { OnOk result (line.new.items
        ≡ line.old.items ++ cycle_text (map (λ block. block.path) blocks.now) numbers.now) }
{
    for number in numbers {
        push(line, b" ")?;
        push_path_of(line, blocks, *number)?;
    }
    Ok(())
}

/// Adds the path of a block; where there is no such block it is empty.
fn push_path_of(line: &mut Vec<u8>, blocks: &[Block], number: u32) -> Result<(), OutOfMemory>
    ensures { OnOk result (line.new.items ≡ line.old.items
        ++ quoted_path (slice_index_or (map (λ block. block.path) blocks.now) number [])) }
{
    match blocks.get(number as usize) {
        Some(block) => push_path(line, &block.path),
        None => push_quoted(line, b""),
    }
}

/// Adds what is told beside the place.
pub fn push_shown(line: &mut Vec<u8>, shown: &Shown, blocks: &[Block]) -> Result<(), OutOfMemory>
    ensures { OnOk result (line.new.items
        ≡ line.old.items ++ shown_text (map (λ block. block.path) blocks.now) shown.now) }
{
    match shown {
        Shown::Nothing => Ok(()),
        Shown::Word(word) => push_value(line, b": ", Value::Escaped(word.bytes()), blocks),
        Shown::Periods { own, other } => {
            let (own, other) = (Value::Period(*own), Value::Period(*other));
            push_both(line, b": periods ", own, b" ", other, blocks)
        }
        Shown::Cycle { blocks: numbers } => {
            push_value(line, b": cycle", Value::Cycle(numbers.as_slice()), blocks)
        }
        Shown::Latency {
            blocks: numbers,
            total,
        } => {
            let (total, cycle) = (Value::Signed(*total), Value::Cycle(numbers.as_slice()));
            push_both(line, b": total ", total, b" cycle", cycle, blocks)
        }
        Shown::Budget { period, need, have } => {
            let (period, need) = (Value::Number(u64::from(*period)), Value::Number(*need));
            push_both(line, b": period ", period, b" need ", need, blocks)?;
            push_value(line, b" have ", Value::Number(*have), blocks)
        }
        Shown::Size { storage, latency } => {
            let (storage, latency) = (Value::Number(*storage), Value::Number(*latency));
            push_both(line, b": storage ", storage, b" latency ", latency, blocks)
        }
    }
}

/// What stands behind a word of a line.
#[derive(Clone, Copy)]
pub enum Value<'a> {
    /// Bytes as they are.
    Bytes(&'a [u8]),
    /// Bytes of a name as they stand between quotes.
    Escaped(&'a [u8]),
    /// The place of a broken rule.
    Place(&'a [u8]),
    /// A number in decimal.
    Number(u64),
    /// A number in decimal, with a minus where it is below 0.
    Signed(i64),
    /// A period.
    Period(u32),
    /// The paths of blocks, each behind a space.
    Cycle(&'a [u32]),
}

/// Adds a word and what stands behind it.
fn push_value(
    line: &mut Vec<u8>,
    word: &[u8],
    value: Value<'_>,
    blocks: &[Block],
) -> Result<(), OutOfMemory>
    ensures { OnOk result (line.new.items ≡ line.old.items
        ++ (word.now ++ value_text (map (λ block. block.path) blocks.now) value.entry)) }
{
    push(line, word)?;
    match value {
        Value::Bytes(bytes) => push(line, bytes),
        Value::Escaped(bytes) => push_escaped(line, bytes),
        Value::Place(path) => push_place(line, path),
        Value::Number(number) => push_number(line, number),
        Value::Signed(number) => push_signed(line, number),
        Value::Period(period) => push_period(line, period),
        Value::Cycle(numbers) => push_cycle(line, numbers, blocks),
    }
}

/// Adds two words, each with what stands behind it.
fn push_both(
    line: &mut Vec<u8>,
    word: &[u8],
    value: Value<'_>,
    other: &[u8],
    behind: Value<'_>,
    blocks: &[Block],
) -> Result<(), OutOfMemory>
    ensures { OnOk result (line.new.items ≡ line.old.items
        ++ (word.now ++ value_text (map (λ block. block.path) blocks.now) value.entry
        ++ other.now ++ value_text (map (λ block. block.path) blocks.now) behind.entry)) }
{
    push_value(line, word, value, blocks)?;
    push_value(line, other, behind, blocks)
}
