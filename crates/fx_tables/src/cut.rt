ghost use Rattle.std.specs.Prelude.{◌≡◌, ℕ, ◌+◌, ◌∷◌, ◌<◌, ◌≤◌, [], true, false, length, drop, slice_index, ◌==◌};
ghost use Rattle.fx_io.specs.FaultLine.{newline};
ghost use Rattle.std.specs.Str.Lines.{lines, strip_carriage_return};
ghost use Rattle.fx_tables.specs.Fields.{is_blank, after_blanks, fields_of};

use memchr::memchr;

/// A piece of a text, and what follows it.
#[derive(Clone, Copy)]
pub(crate) struct Cut<'a> {
    pub(crate) head: &'a [u8],
    pub(crate) tail: &'a [u8],
}

/// Cuts the first line off a text, without its newline and a carriage return before that.
pub(crate) fn cut_line(text: &[u8]) -> Cut<'_>
    requires { 0 < length text.now }
    ensures line { lines text.now ≡ result.head.now ∷ lines result.tail.now }
    ensures shorter { length result.tail.now < length text.now }
{
    let end = newline_place(text);
    if end == text.len() {
        return Cut {
            head: text,
            tail: &text[end..],
        };
    }
    Cut {
        head: without_return(&text[..end]),
        tail: &text[end + 1..],
    }
}

/// The line without a carriage return at its end.
fn without_return(line: &[u8]) -> &[u8]
    ensures { result.now ≡ strip_carriage_return line.now }
{
    match line.split_last() {
        Some((b'\r', front)) => front,
        _ => line,
    }
}

/// Cuts the first field off a line; an empty head says that there is none.
pub(crate) fn cut_field(line: &[u8]) -> Cut<'_>
    ensures none { length result.head.now ≡ 0 → fields_of line.now ≡ [] }
    ensures field { 0 < length result.head.now
        → fields_of line.now ≡ result.head.now ∷ fields_of result.tail.now }
    ensures rest { result.tail.now ≡ drop (length result.head.now) (after_blanks line.now) }
    ensures shorter { length result.head.now + length result.tail.now ≤ length line.now }
{
    let rest = skip_blanks(line);
    let end = field_end(rest);
    Cut {
        head: &rest[..end],
        tail: &rest[end..],
    }
}

/// The line from its first byte that is no blank.
pub(crate) fn skip_blanks(line: &[u8]) -> &[u8]
    ensures rest { result.now ≡ after_blanks line.now }
    ensures same_fields { fields_of result.now ≡ fields_of line.now }
    ensures start { 0 < length result.now → is_blank (slice_index result.now 0) ≡ false }
    ensures shorter { length result.now ≤ length line.now }
{
    &line[field_start(line)..]
}

/// Where the first newline stands, or the length.
fn newline_place(text: &[u8]) -> usize
    ensures within { result ≤ length text.now }
    ensures before { (k : ℕ) → k < result → (slice_index text.now k == newline) ≡ false }
    ensures found { result < length text.now → slice_index text.now result ≡ newline }
{
    match memchr(b'\n', text) {
        Some(place) => place,
        None => text.len(),
    }
}

/// Where the first byte stands that is no blank, or the length.
fn field_start(line: &[u8]) -> usize
    ensures within { result ≤ length line.now }
    ensures before { (k : ℕ) → k < result → is_blank (slice_index line.now k) ≡ true }
    ensures found { result < length line.now → is_blank (slice_index line.now result) ≡ false }
{
    for (i, byte) in line.iter().enumerate() {
        if !is_blank(*byte) {
            return i;
        }
    }
    line.len()
}

/// Where the first blank stands, or the length.
fn field_end(line: &[u8]) -> usize
    ensures within { result ≤ length line.now }
    ensures before { (k : ℕ) → k < result → is_blank (slice_index line.now k) ≡ false }
    ensures found { result < length line.now → is_blank (slice_index line.now result) ≡ true }
{
    for (i, byte) in line.iter().enumerate() {
        if is_blank(*byte) {
            return i;
        }
    }
    line.len()
}

/// Whether a byte is a blank.
#[inline(always)]
pub(crate) fn is_blank(byte: u8) -> bool
    ensures { result ≡ is_blank byte }
{
    byte == b' ' || byte == b'\t'
}
