ghost use Rattle.std.specs.Prelude.{◌≡◌, ◌<◌, ◌≤◌, false, length};
ghost use Rattle.vl_read.specs.inner.Lexemes.{class_of, continues};
ghost use Rattle.vl_read.specs.inner.Turns.{mode_by, mode_after, goes_on_at, GoOn};

use crate::scan::{ByteClass, Mode, class_of, extends};

/// After a byte outside of comments.
fn outside(class: ByteClass) -> Option<Mode>
    ensures { result ≡ mode_by class }
{
    match class {
        ByteClass::OfWord => Some(Mode::Word),
        ByteClass::OfBlank => Some(Mode::Between),
        ByteClass::OfComment => Some(Mode::Slash),
        ByteClass::OfMark => Some(Mode::Mark),
        ByteClass::OfNone => None,
    }
}

/// Where the reading is after a byte that goes on with no lexeme. `None` where it may not stand there.
pub fn mode_after(mode: Mode, byte: u8) -> Option<Mode>
    ensures { result ≡ mode_after mode byte }
{
    match mode {
        Mode::Between | Mode::Word | Mode::Mark => outside(class_of(byte)),
        Mode::Slash => match byte {
            b'/' => Some(Mode::LineComment),
            b'*' => Some(Mode::BlockComment),
            _ => None,
        },
        Mode::LineComment => match byte {
            b'\n' => Some(Mode::Between),
            _ => Some(Mode::LineComment),
        },
        Mode::BlockComment => match byte {
            b'*' => Some(Mode::Star),
            _ => Some(Mode::BlockComment),
        },
        Mode::Star => match byte {
            b'/' => Some(Mode::Between),
            b'*' => Some(Mode::Star),
            _ => Some(Mode::BlockComment),
        },
    }
}

/// Whether a byte goes on with a lexeme.
fn goes_on(mode: Mode, lexeme: &[u8], byte: u8) -> bool
    ensures { result ≡ continues mode (class_of byte) lexeme.now byte }
{
    match (mode, class_of(byte)) {
        (Mode::Word, ByteClass::OfWord) => true,
        (Mode::Mark, ByteClass::OfMark) => extends(lexeme, byte),
        _ => false,
    }
}

/// Where the lexeme ends that begins at a place.
pub fn lexeme_end(mode: Mode, bytes: &[u8], start: usize) -> usize
    requires { start < length bytes.now }
    ensures more { start < result }
    ensures within { result ≤ length bytes.now }
    ensures each { GoOn mode bytes.now start result }
    ensures stops { result < length bytes.now → goes_on_at mode bytes.now start result ≡ false }
{
    for end in start + 1..bytes.len() {
        if !goes_on(mode, &bytes[start..end], bytes[end]) {
            return end;
        }
    }
    bytes.len()
}
