ghost use Rattle.std.specs.Prelude.{ℕ, List, ◌≡◌, ◌≢◌, ◌<◌, ◌≤◌, length, drop, ◌++◌, None, Some, OnOk, IfOk, MatchOption, slice_index};
ghost use Rattle.std.specs.List.{prefix_len};
ghost use Rattle.fx_text.specs.Strings.{quote_mark, string_behind, prepend, escaped, is_plain, IsString};

use crate::pushing::push;
use fx_io::{OutOfMemory, Text};
use std::alloc::Global;

/// A string of a text.
#[derive(Drop)]
pub struct QuotedText {
    /// What it says, with its escapes read.
    pub content: Text,
    /// How many bytes it takes behind its opening quote, with the closing one.
    pub length: usize,
}

/// Reads the string behind an opening quote, up to the closing one. `None` where none closes it.
pub fn read_string(alloc: Global, text: &[u8]) -> Result<Option<QuotedText>, OutOfMemory>
    ensures { IfOk result (λ found. MatchOption found (string_behind text.now ≡ None) (λ string.
        (string.length ≤ length text.now)
        × (string_behind text.now ≡ Some (string.content, drop string.length text.now)))) }
{
    let mut content = Vec::new(alloc);
    let mut place = 0;
    while place < text.len() {
        if text[place] == b'"' {
            return Ok(Some(QuotedText {
                content: Text::from_vec(alloc, content)?,
                length: place + 1,
            }));
        }
        place += push_char(&mut content, &text[place..])?;
    }
    Ok(None)
}

/// Puts what the first byte says at the end, or the first two where a backslash stands first, and
/// tells how many bytes these are.
fn push_char(content: &mut Vec<u8>, text: &[u8]) -> Result<usize, OutOfMemory>
    requires some { 0 < length text.now }
    requires inside { slice_index text.now 0 ≢ quote_mark }
    ensures some { IfOk result (λ used. 0 < used) }
    ensures within { IfOk result (λ used. used ≤ length text.now) }
    ensures put { IfOk result (λ used.
        prepend content.new.items (string_behind (drop used text.now))
        ≡ prepend content.old.items (string_behind text.now)) }
{
    if text.len() > 1 && text[0] == b'\\' {
        push_escaped(content, text[1])?;
        Ok(2)
    } else {
        content.push(text[0])?;
        Ok(1)
    }
}

/// Puts what a backslash and the byte behind it say at the end.
pub fn push_escaped(content: &mut Vec<u8>, byte: u8) -> Result<(), OutOfMemory>
    ensures { OnOk result (content.new.items ≡ content.old.items ++ escaped byte) }
{
    match byte {
        b'n' => push(content, b"\n"),
        b't' => push(content, b"\t"),
        b'"' | b'\\' => push(content, &[byte]),
        _ => push(content, &[b'\\', byte]),
    }
}

/// How many bytes from the front on stand for themselves in a string.
pub fn plain_length(bytes: &[u8]) -> usize
    ensures value { result ≡ prefix_len is_plain bytes.now }
    ensures within { result ≤ length bytes.now }
{
    for (i, byte) in bytes.iter().enumerate() {
        if *byte == b'"' || *byte == b'\\' {
            return i;
        }
    }
    bytes.len()
}

/// A text is read as a string behind an opening quote exactly where it has the form of one.
pub fn strings_are_forms()
    ensures form { (text content rest : List ℕ) →
        string_behind text ≡ Some (content, rest) → IsString text content rest }
    ensures read { (text content rest : List ℕ) →
        IsString text content rest → string_behind text ≡ Some (content, rest) }
{}
