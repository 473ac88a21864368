//! Data types.
ghost use Rattle.std.specs.Prelude.{◌≡◌, ℕ, List, [], ◌∷◌, pos, MatchOption};
ghost use Rattle.fx_type.specs.declared.kind.FxType.{FxType};
ghost use Rattle.mdl_values.specs.Reads.{Finds};
ghost use Rattle.mdl_values.specs.Pieces.{words_of};
ghost use Rattle.mdl_values.specs.Types.{named_type, signedness_of, IsFracText, IsSignPart, IsWidthPart, IsFracPart, IsWordOf, IsCall, IsFixdtText, IsTypeText};

use crate::brackets::two_of;
use crate::numbers::read_number;
use crate::pieces::{cut, first_word};
use crate::words::value_beside;
use fx_type::FxType;

/// The types without bits behind the point that have a name: whether each is signed, and its width.
const WHOLE_TYPES: &[(&str, (bool, u8))] = &[
    ("int8", (true, 8)),
    ("int16", (true, 16)),
    ("int32", (true, 32)),
    ("uint8", (false, 8)),
    ("uint16", (false, 16)),
    ("uint32", (false, 32)),
];

/// What says whether a type is signed.
const SIGNS: &[(&str, bool)] = &[("1", true), ("true", true), ("0", false), ("false", false)];

/// A word with no bits behind the point.
fn whole(signed: bool, width: u8) -> FxType
    ensures { result ≡ FxType.Num signed width (pos 0) }
{
    FxType::Num {
        signed,
        width,
        frac: 0,
    }
}

/// The type of a name.
fn named_type(text: &[u8]) -> Option<FxType>
    ensures { result ≡ named_type text.now }
{
    match value_beside(WHOLE_TYPES, text) {
        Some((signed, width)) => Some(whole(signed, width)),
        None => {
            if text == b"boolean".as_slice() {
                Some(FxType::Logical)
            } else {
                None
            }
        }
    }
}

/// Whether a type is signed.
fn signedness_of(text: &[u8]) -> Option<bool>
    ensures { result ≡ signedness_of text.now }
{
    value_beside(SIGNS, text)
}

/// Reads a whole number of at most 128, which may have a minus sign.
fn read_frac(text: &[u8]) -> Option<i16>
    ensures { Finds (IsFracText text.now) result }
{
    if !text.is_empty() && text[0] == b'-' {
        match read_number(&text[1..], 0, 128) {
            Some(size) => Some(-(size as i16)),
            None => None,
        }
    } else {
        match read_number(text, 0, 128) {
            Some(size) => Some(size as i16),
            None => None,
        }
    }
}

/// The only word of a text.
fn only_word(text: &[u8]) -> Option<&[u8]>
    ensures { MatchOption result ((word : List ℕ) → ¬ (words_of text.now ≡ word ∷ []))
        (λ word. words_of text.now ≡ word.now ∷ []) }
{
    let Some((word, after)) = first_word(text) else {
        return None;
    };
    match first_word(after) {
        Some(_) => None,
        None => Some(word),
    }
}

/// Whether a part says that a type is signed.
fn sign_part(part: &[u8]) -> Option<bool>
    ensures { Finds (IsSignPart part.now) result }
{
    match only_word(part) {
        Some(word) => signedness_of(word),
        None => None,
    }
}

/// The width that a part says.
fn width_part(part: &[u8]) -> Option<u32>
    ensures { Finds (IsWidthPart part.now) result }
{
    match only_word(part) {
        Some(word) => read_number(word, 1, 128),
        None => None,
    }
}

/// The bits behind the point that a part says.
fn frac_part(part: &[u8]) -> Option<i16>
    ensures { Finds (IsFracPart part.now) result }
{
    match only_word(part) {
        Some(word) => read_frac(word),
        None => None,
    }
}

/// What stands in the parentheses of `fixdt( .. )`.
fn call(text: &[u8]) -> Option<&[u8]>
    ensures { MatchOption result ((inside : List ℕ) → ¬ IsCall text.now inside)
        (λ inside. IsCall text.now inside.now) }
{
    let Some((name, behind)) = two_of(text, b'(') else {
        return None;
    };
    if name != b"fixdt".as_slice() {
        return None;
    }
    let Some((inside, after)) = two_of(behind, b')') else {
        return None;
    };
    if after.is_empty() { Some(inside) } else { None }
}

/// The type that a sign, a width and the bits behind the point give.
fn word_of(first: &[u8], second: &[u8], third: &[u8]) -> Option<FxType>
    ensures { Finds (IsWordOf first.now second.now third.now) result }
{
    let Some(signed) = sign_part(first) else {
        return None;
    };
    let Some(width) = width_part(second) else {
        return None;
    };
    let Some(frac) = frac_part(third) else {
        return None;
    };
    let read = FxType::Num {
        signed,
        width: width as u8,
        frac,
    };
    if read.is_valid() { Some(read) } else { None }
}

/// Reads `fixdt(s, w, f)`.
fn fixdt(text: &[u8]) -> Option<FxType>
    ensures { Finds (IsFixdtText text.now) result }
{
    let Some(inside) = call(text) else {
        return None;
    };
    let (first, behind) = cut(inside, b',');
    let Some(rest) = behind else {
        return None;
    };
    let Some((second, third)) = two_of(rest, b',') else {
        return None;
    };
    word_of(first, second, third)
}

/// Reads a type: its name, or `fixdt(s, w, f)`. Source: Fixed-Point Designer, `fixdt`.
pub fn read_type(text: &[u8]) -> Option<FxType>
    ensures { Finds (IsTypeText text.now) result }
{
    match named_type(text) {
        Some(named) => Some(named),
        None => fixdt(text),
    }
}
