ghost use Rattle.std.specs.Prelude.{◌≡◌, length, ◌≤◌};
ghost use Rattle.std.specs.List.{list_all, prefix_len};
ghost use Rattle.mdl_text.specs.Bytes.{is_blank, is_name_byte};
ghost use Rattle.mdl_text.specs.inner.Plain.{unblanked, trimmed};

/// Whether a byte is a space, a tab or a carriage return.
#[tactic(auto, unfolding(crate::specs::Bytes::is_blank))]
pub fn is_blank(byte: u8) -> bool
    ensures { result ≡ is_blank byte }
{
    byte == b' ' || byte == b'\t' || byte == b'\r'
}

/// Of each byte, whether it may stand in a name: `n` where it may.
const NAME_BYTES: &[u8; 256] = b"\
    --------------------------------\
    ----n---------n-nnnnnnnnnn------\
    -nnnnnnnnnnnnnnnnnnnnnnnnnn----n\
    -nnnnnnnnnnnnnnnnnnnnnnnnnn-----\
    --------------------------------\
    --------------------------------\
    --------------------------------\
    --------------------------------";

/// Whether a byte may stand in a name.
#[tactic(auto, unfolding(crate::specs::Bytes::is_name_byte))]
fn is_name_byte(byte: u8) -> bool
    ensures { result ≡ is_name_byte byte }
{
    NAME_BYTES[usize::from(byte)] == b'n'
}

/// Whether all are blanks.
pub fn are_blanks(bytes: &[u8]) -> bool
    ensures { result ≡ list_all is_blank bytes.now }
{
    for byte in bytes {
        if !is_blank(*byte) {
            return false;
        }
    }
    true
}

/// The bytes behind spaces at their front, of which it goes over eight at a time, and then two.
#[tactic(auto, unfolding(crate::specs::Bytes::is_blank))]
fn trim_indent(bytes: &[u8]) -> &[u8]
    ensures { unblanked result.now ≡ unblanked bytes.now }
{
    let mut rest = bytes;
    while let [b' ', b' ', b' ', b' ', b' ', b' ', b' ', b' ', after @ ..] = rest {
        rest = after;
    }
    while let [b' ', b' ', after @ ..] = rest {
        rest = after;
    }
    rest
}

/// The bytes from the first that is no blank.
pub fn trim_start(bytes: &[u8]) -> &[u8]
    ensures { result.now ≡ unblanked bytes.now }
{
    let mut rest = bytes;
    while let [byte, after @ ..] = rest {
        if !is_blank(*byte) {
            return rest;
        }
        rest = after;
    }
    rest
}

/// The bytes of a line from the first that is no blank. Most lines are indented by spaces.
pub fn line_text(line: &[u8]) -> &[u8]
    ensures { result.now ≡ unblanked line.now }
{
    trim_start(trim_indent(line))
}

/// The bytes without the blanks at their end.
pub fn trim_end(bytes: &[u8]) -> &[u8]
    ensures { result.now ≡ trimmed bytes.now }
{
    let mut end = bytes.len();
    while end > 0 && is_blank(bytes[end - 1]) {
        end -= 1;
    }
    &bytes[..end]
}

/// How many bytes from the front on may stand in a name.
pub fn name_length(bytes: &[u8]) -> usize
    ensures value { result ≡ prefix_len is_name_byte bytes.now }
    ensures within { result ≤ length bytes.now }
{
    for (i, byte) in bytes.iter().enumerate() {
        if !is_name_byte(*byte) {
            return i;
        }
    }
    bytes.len()
}
