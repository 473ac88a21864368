//! Elements in brackets.
ghost use Rattle.std.specs.Prelude.{◌≡◌, None, Some, IfOk, MatchOption};
ghost use Rattle.mdl_values.specs.Reads.{Finds};
ghost use Rattle.mdl_values.specs.Pieces.{pieces_at, words_of, two_of, opens, bracketed, bracket_elements, alone, list_elements};
ghost use Rattle.mdl_values.specs.inner.Sizes.{AreSized};

use crate::pieces::{cut, elements, first_word, push_words, trim_start};
use fx_io::{OutOfMemory, Texts};
use std::alloc::Global;

/// The two pieces of a text that has no more.
pub fn two_of(text: &[u8], separator: u8) -> Option<(&[u8], &[u8])>
    ensures { MatchOption result (two_of (pieces_at separator text.now) ≡ None)
        (λ found. two_of (pieces_at separator text.now) ≡ Some (found.0.now, found.1.now)) }
{
    let (first, behind) = cut(text, separator);
    let Some(rest) = behind else {
        return None;
    };
    let (second, more) = cut(rest, separator);
    match more {
        Some(_) => None,
        None => Some((first, second)),
    }
}

/// Whether an opening bracket stands first.
pub fn opens(text: &[u8]) -> bool
    ensures { result ≡ opens text.now }
{
    !text.is_empty() && text[0] == b'['
}

/// What stands behind an opening bracket before the only closing one, and what follows that.
fn bracket_parts(text: &[u8]) -> Option<(&[u8], &[u8])>
    ensures { MatchOption result (bracketed text.now ≡ None)
        (λ found. bracketed text.now ≡ Some (found.0.now, found.1.now)) }
{
    if opens(text) {
        two_of(&text[1..], b']')
    } else {
        None
    }
}

/// The elements in the brackets that a text is.
pub fn bracket_elements(alloc: Global, text: &[u8]) -> Result<Option<Texts>, OutOfMemory>
    ensures { IfOk result (λ found. found ≡ bracket_elements text.now) }
{
    match bracket_parts(text) {
        Some((inside, after)) if after.is_empty() => elements(alloc, inside),
        _ => Ok(None),
    }
}

/// The only word of a text, as a list of one.
fn alone(alloc: Global, text: &[u8]) -> Result<Option<Texts>, OutOfMemory>
    ensures { IfOk result (λ found. found ≡ alone (words_of text.now)) }
{
    let mut words = Texts::new(alloc);
    match push_words(alloc, &mut words, text) {
        Ok(()) if words.as_slice().len() == 1 => Ok(Some(words)),
        Ok(()) => {
            drop(words);
            Ok(None)
        }
        Err(wanting) => {
            drop(words);
            Err(wanting)
        }
    }
}

/// The elements of a list: those in its brackets, or the one that it is. Blanks around are passed
/// over.
pub fn list_elements(alloc: Global, text: &[u8]) -> Result<Option<Texts>, OutOfMemory>
    ensures { IfOk result (λ found. found ≡ list_elements text.now) }
{
    let text = trim_start(text);
    if !opens(text) {
        return alone(alloc, text);
    }
    let Some((inside, after)) = bracket_parts(text) else {
        return Ok(None);
    };
    if first_word(after).is_some() {
        return Ok(None);
    }
    elements(alloc, inside)
}

/// The elements, where there are at least `least` and at most `most`.
pub fn elements_within(elements: Option<Texts>, least: usize, most: usize) -> Option<Texts>
    ensures { Finds (AreSized elements least most) result }
{
    let Some(texts) = elements else {
        return None;
    };
    let count = texts.as_slice().len();
    if least <= count && count <= most {
        Some(texts)
    } else {
        None
    }
}
