// The smallest parts of the text, each put at its end.
ghost use Rattle.std.specs.Prelude.{◌≡◌, ◌++◌, IfOk, decimal, false};
ghost use Rattle.vl_ast.specs.Spelling.{sized_text, signed_text, range_text};
ghost use Rattle.vl_write.specs.inner.Puts.{Puts, base_text};

use fx_io::OutOfMemory;
use fx_text::push;
use itoa::Buffer;
use vl_ast::Sized;

/// A text that grows at its end, and whether memory was wanting for some of it.
#[derive(Drop)]
pub struct Writer {
    pub text: Vec<u8>,
    pub wanting: bool,
}

/// The text, if memory was there for all of it.
pub fn finish(out: Writer) -> Result<Vec<u8>, OutOfMemory>
    ensures { IfOk result (λ text. (out.wanting ≡ false) × (text.items ≡ out.text.items)) }
{
    let Writer { text, wanting } = out;
    // allocation: the text's, at the bytes where it first failed
    if wanting { Err(OutOfMemory) } else { Ok(text) }
}

/// Puts bytes.
pub fn put(out: &mut Writer, bytes: &[u8])
    ensures { Puts out.old out.new bytes.now }
{
    if let Err(_wanting) = push(&mut out.text, bytes) {
        out.wanting = true;
    }
}

/// Puts a number in base ten, without leading zeros.
pub fn put_number(out: &mut Writer, number: u128)
    ensures { Puts out.old out.new (decimal number) }
{
    let mut digits = Buffer::new();
    put(out, digits.format(number).as_bytes());
}

/// Puts a number of 32 bits between two texts.
pub fn put_between(out: &mut Writer, before: &[u8], number: u32, after: &[u8])
    ensures { Puts out.old out.new (before.now ++ (decimal number ++ after.now)) }
{
    put(out, before);
    put_number(out, u128::from(number));
    put(out, after);
}

/// What stands between the width and the digits of a number in base ten.
fn base_word(signed: bool) -> &'static [u8]
    ensures { result.now ≡ base_text signed }
{
    if signed { b"'sd" } else { b"'d" }
}

/// Puts a based number, as `16'sd7`.
pub fn put_sized(out: &mut Writer, number: &Sized)
    ensures { Puts out.old out.new (sized_text number.now) }
{
    put_between(out, b"", number.width, base_word(number.signed));
    put_number(out, number.bits.get());
}

/// The word of a signed net.
fn signed_word(signed: bool) -> &'static [u8]
    ensures { result.now ≡ signed_text signed }
{
    if signed { b"signed " } else { b"" }
}

/// Puts the range of a net, which one of one bit lacks.
fn put_range(out: &mut Writer, width: u32)
    ensures { Puts out.old out.new (range_text width) }
{
    if width == 1 {
        return;
    }
    put_between(out, b"[", width.saturating_sub(1), b":0] ");
}

/// Puts a net behind the word of its kind.
pub fn put_net(out: &mut Writer, word: &[u8], signed: bool, width: u32, name: &[u8])
    ensures { Puts out.old out.new
        (word.now ++ (signed_text signed ++ (range_text width ++ name.now))) }
{
    put(out, word);
    put(out, signed_word(signed));
    put_range(out, width);
    put(out, name);
}
