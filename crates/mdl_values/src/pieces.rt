//! Values cut into pieces, words and elements.
ghost use Rattle.std.specs.Prelude.{◌≡◌, ◌<◌, ◌≤◌, ◌∷◌, ◌++◌, ◌==◌, [], length, OnOk, IfOk, IfSome, MatchOption};
ghost use Rattle.std.specs.List.{prefix_len};
ghost use Rattle.mdl_values.specs.Pieces.{is_other, pieces_at, is_solid, words_of, unblanked, separator_of, may_stand, elements_of};
ghost use Rattle.mdl_values.specs.inner.Runs.{is_of};

use fx_io::{OutOfMemory, Text, Texts};
use std::alloc::Global;

/// Whether a byte is no space, no tab and no carriage return.
#[tactic(auto, unfolding(mdl_text::specs::Bytes::is_blank))]
pub fn is_solid(byte: u8) -> bool
    ensures { result ≡ is_solid byte }
{
    byte != b' ' && byte != b'\t' && byte != b'\r'
}

/// How many bytes from the front on are solid, or how many are blanks.
fn run_length(text: &[u8], solid: bool) -> usize
    ensures value { result ≡ prefix_len (is_of solid) text.now }
    ensures within { result ≤ length text.now }
{
    for (i, byte) in text.iter().enumerate() {
        if is_solid(*byte) != solid {
            return i;
        }
    }
    text.len()
}

/// How many bytes stand before the first separator.
fn piece_length(text: &[u8], separator: u8) -> usize
    ensures value { result ≡ prefix_len (is_other separator) text.now }
    ensures within { result ≤ length text.now }
{
    for (i, byte) in text.iter().enumerate() {
        if *byte == separator {
            return i;
        }
    }
    text.len()
}

/// The first piece, and the text behind its separator where one stands.
pub fn cut(text: &[u8], separator: u8) -> (&[u8], Option<&[u8]>)
    ensures pieces { MatchOption result.1 (pieces_at separator text.now ≡ result.0.now ∷ [])
        (λ rest. pieces_at separator text.now ≡ result.0.now ∷ pieces_at separator rest.now) }
    ensures shorter { IfSome result.1 (λ rest. length rest.now < length text.now) }
{
    let end = piece_length(text, separator);
    if end < text.len() {
        (&text[..end], Some(&text[end + 1..]))
    } else {
        (text, None)
    }
}

/// The text from its first word on.
pub fn trim_start(text: &[u8]) -> &[u8]
    ensures value { result.now ≡ unblanked text.now }
    ensures within { length result.now ≤ length text.now }
{
    &text[run_length(text, false)..]
}

/// The first word, and the text behind it.
pub fn first_word(text: &[u8]) -> Option<(&[u8], &[u8])>
    ensures words { MatchOption result (words_of text.now ≡ [])
        (λ cut. words_of text.now ≡ cut.0.now ∷ words_of cut.1.now) }
    ensures shorter { IfSome result (λ cut. length cut.1.now < length text.now) }
{
    let solid = trim_start(text);
    let end = run_length(solid, true);
    if end == 0 {
        None
    } else {
        Some(solid.split_at(end))
    }
}

/// Puts the words of a text at the end.
pub fn push_words(alloc: Global, words: &mut Texts, text: &[u8]) -> Result<(), OutOfMemory>
    ensures { OnOk result (words.new ≡ words.old ++ words_of text.now) }
{
    let mut rest = text;
    while let Some((word, after)) = first_word(rest) {
        words.push(Text::copy(alloc, word)?)?;
        rest = after;
    }
    Ok(())
}

/// The semicolon where one stands in the text, else the comma.
fn separator_of(text: &[u8]) -> u8
    ensures { result ≡ separator_of text.now }
{
    if text.contains(&b';') { b';' } else { b',' }
}

/// Whether so many words may stand in one piece.
fn may_stand(separator: u8, words: usize) -> bool
    ensures { result ≡ may_stand separator words }
{
    if separator == b';' {
        words == 1
    } else {
        words > 0
    }
}

/// Puts the words of a piece at the end, and tells whether so many may stand in one.
fn push_piece(
    alloc: Global,
    elements: &mut Texts,
    piece: &[u8],
    separator: u8,
) -> Result<bool, OutOfMemory>
    ensures { IfOk result (λ stands. (elements.new ≡ elements.old ++ words_of piece.now)
        × (stands ≡ may_stand separator (length (words_of piece.now)))) }
{
    let before = elements.as_slice().len();
    push_words(alloc, elements, piece)?;
    Ok(may_stand(separator, elements.as_slice().len() - before))
}

/// The elements of a text, separated by blanks and commas throughout or by semicolons throughout.
pub fn elements(alloc: Global, text: &[u8]) -> Result<Option<Texts>, OutOfMemory>
    ensures { IfOk result (λ found. found ≡ elements_of text.now) }
{
    let separator = separator_of(text);
    let mut elements = Texts::new(alloc);
    let mut rest = Some(text);
    while let Some(pieces) = rest {
        let (piece, after) = cut(pieces, separator);
        match push_piece(alloc, &mut elements, piece, separator) {
            Ok(true) => rest = after,
            Ok(false) => {
                drop(elements);
                return Ok(None);
            }
            Err(wanting) => {
                drop(elements);
                return Err(wanting);
            }
        }
    }
    Ok(Some(elements))
}
