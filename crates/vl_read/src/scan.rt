ghost use Rattle.std.specs.Prelude.{◌≡◌, bytes_eq};
ghost use Rattle.vl_read.specs.inner.Lexemes.{class_of, extends};

use crate::scan::ByteClass::{OfBlank, OfComment, OfMark, OfNone, OfWord};
use vl_ast::Sized;

/// What a byte is outside of comments.
#[derive(Clone, Copy)]
pub enum ByteClass {
    /// A letter, a digit, `_`, `$` or `'`.
    OfWord,
    /// A space, a tab, a newline, a form feed or a carriage return.
    OfBlank,
    /// `/`, which begins a comment.
    OfComment,
    /// A byte of an operator, a bracket or a separator.
    OfMark,
    /// Any other.
    OfNone,
}

/// Where between and in lexemes the reading is.
#[derive(Clone, Copy)]
pub enum Mode {
    Between,
    /// In a word.
    Word,
    /// In a mark.
    Mark,
    /// After `/`.
    Slash,
    /// After `//`.
    LineComment,
    /// After `/*`.
    BlockComment,
    /// After `/*` and a `*` that may end it.
    Star,
}

/// What a lexeme may be.
#[derive(Clone, Copy)]
pub enum Kind {
    /// An identifier.
    Name,
    /// A number without base.
    Count(u32),
    /// A number with its base.
    Constant(Sized),
    /// No other than what it is written as.
    Fixed,
}

/// Whether a lexeme is this word or mark.
pub fn is(lexeme: &[u8], word: &str) -> bool
    ensures { result ≡ bytes_eq lexeme.now word.now }
{
    lexeme == word.as_bytes()
}

/// Of each byte, what it is outside of comments.
const CLASSES: &[ByteClass; 256] = &[
    OfNone, OfNone, OfNone, OfNone, OfNone, OfNone, OfNone, OfNone, OfNone, OfBlank, OfBlank,
    OfNone, OfBlank, OfBlank, OfNone, OfNone, OfNone, OfNone, OfNone, OfNone, OfNone, OfNone,
    OfNone, OfNone, OfNone, OfNone, OfNone, OfNone, OfNone, OfNone, OfNone, OfNone, OfBlank,
    OfMark, OfNone, OfNone, OfWord, OfNone, OfMark, OfWord, OfMark, OfMark, OfMark, OfMark, OfMark,
    OfMark, OfMark, OfComment, OfWord, OfWord, OfWord, OfWord, OfWord, OfWord, OfWord, OfWord,
    OfWord, OfWord, OfMark, OfMark, OfMark, OfMark, OfMark, OfMark, OfMark, OfWord, OfWord, OfWord,
    OfWord, OfWord, OfWord, OfWord, OfWord, OfWord, OfWord, OfWord, OfWord, OfWord, OfWord, OfWord,
    OfWord, OfWord, OfWord, OfWord, OfWord, OfWord, OfWord, OfWord, OfWord, OfWord, OfWord, OfMark,
    OfNone, OfMark, OfMark, OfWord, OfNone, OfWord, OfWord, OfWord, OfWord, OfWord, OfWord, OfWord,
    OfWord, OfWord, OfWord, OfWord, OfWord, OfWord, OfWord, OfWord, OfWord, OfWord, OfWord, OfWord,
    OfWord, OfWord, OfWord, OfWord, OfWord, OfWord, OfWord, OfMark, OfMark, OfMark, OfMark, OfNone,
    OfNone, OfNone, OfNone, OfNone, OfNone, OfNone, OfNone, OfNone, OfNone, OfNone, OfNone, OfNone,
    OfNone, OfNone, OfNone, OfNone, OfNone, OfNone, OfNone, OfNone, OfNone, OfNone, OfNone, OfNone,
    OfNone, OfNone, OfNone, OfNone, OfNone, OfNone, OfNone, OfNone, OfNone, OfNone, OfNone, OfNone,
    OfNone, OfNone, OfNone, OfNone, OfNone, OfNone, OfNone, OfNone, OfNone, OfNone, OfNone, OfNone,
    OfNone, OfNone, OfNone, OfNone, OfNone, OfNone, OfNone, OfNone, OfNone, OfNone, OfNone, OfNone,
    OfNone, OfNone, OfNone, OfNone, OfNone, OfNone, OfNone, OfNone, OfNone, OfNone, OfNone, OfNone,
    OfNone, OfNone, OfNone, OfNone, OfNone, OfNone, OfNone, OfNone, OfNone, OfNone, OfNone, OfNone,
    OfNone, OfNone, OfNone, OfNone, OfNone, OfNone, OfNone, OfNone, OfNone, OfNone, OfNone, OfNone,
    OfNone, OfNone, OfNone, OfNone, OfNone, OfNone, OfNone, OfNone, OfNone, OfNone, OfNone, OfNone,
    OfNone, OfNone, OfNone, OfNone, OfNone, OfNone, OfNone, OfNone, OfNone, OfNone, OfNone, OfNone,
    OfNone, OfNone, OfNone, OfNone, OfNone, OfNone, OfNone, OfNone,
];

/// What a byte is outside of comments.
pub fn class_of(byte: u8) -> ByteClass
    ensures { result ≡ class_of byte }
{
    CLASSES[usize::from(byte)]
}

/// Whether a mark and the byte after it are one mark, or the beginning of one (the longest is taken).
#[tactic(auto, unfolding(crate::specs::inner::Lexemes::extends))]
pub fn extends(mark: &[u8], byte: u8) -> bool
    ensures { result ≡ extends mark.now byte }
{
    if byte == b'*' {
        is(mark, "(")
    } else if byte == b')' {
        is(mark, "*")
    } else if byte == b'=' {
        is(mark, "<") || is(mark, ">") || is(mark, "=") || is(mark, "!")
    } else if byte == b'<' {
        is(mark, "<")
    } else if byte == b'>' {
        is(mark, ">") || is(mark, ">>")
    } else if byte == b'&' {
        is(mark, "&")
    } else if byte == b'|' {
        is(mark, "|")
    } else {
        false
    }
}
