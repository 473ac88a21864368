ghost use Rattle.std.specs.Prelude.{◌≡◌, ◌+◌, ◌≤◌, [], ◌++◌, length, take, IfOk};

use crate::fault::OutOfMemory;
use std::alloc::Global;
use std::fmt::{self, Debug, Formatter, Write};
use std::marker::Model;

/// So many bytes stand in the text itself, which then takes no memory of its own. The text is of 24
/// bytes: how it stands, its length and these, or a pointer to more.
const SHORT: usize = 22;

/// Where the bytes stand.
#[derive(Drop)]
enum Held {
    Short { length: u8, bytes: [u8; 22] },
    Long(Box<Vec<u8>>),
}

/// A list of bytes (own), of which up to 22 take no memory of their own. Contracts see the list.
#[derive(Drop)]
pub struct Text {
    held: Held,
}

impl Model for Text {
    ghost use Rattle.std.specs.Prelude.{List, ℕ};
    ghost use Rattle.fx_io.specs.inner.Bytes.{held_bytes, IsHeld};

    ghost Value = { List ℕ };

    ghost view = { λ text. held_bytes text.held };

    ghost invariant = { λ text. IsHeld text.held };
}

impl Debug for Text {
    fn fmt<W: Write>(&self, f: &mut Formatter<W>) -> fmt::Result {
        self.bytes().fmt(f)
    }
}

impl Text {
    /// A copy of the bytes.
    pub fn copy(alloc: Global, bytes: &[u8]) -> Result<Text, OutOfMemory>
        ensures { IfOk result (λ text. text ≡ bytes.now) }
    {
        if bytes.len() <= SHORT {
            Ok(Text::short(bytes))
        } else {
            Text::long(alloc, Vec::from_slice(alloc, bytes)?)
        }
    }

    /// No bytes.
    pub fn new() -> Text
        ensures { result ≡ [] }
    {
        Text::short(b"")
    }

    fn short(bytes: &[u8]) -> Text
        requires { length bytes.now ≤ 22 }
        ensures { result ≡ bytes.now }
    {
        Text::from_parts([0; SHORT], 0, bytes)
    }

    fn long(alloc: Global, bytes: Vec<u8>) -> Result<Text, OutOfMemory>
        ensures { IfOk result (λ text. text ≡ bytes.items) }
    {
        Ok(Text {
            held: Held::Long(Box::new(alloc, bytes)?),
        })
    }

    /// The bytes of a `Vec`. More than 22 are taken over as they are.
    pub fn from_vec(alloc: Global, bytes: Vec<u8>) -> Result<Text, OutOfMemory>
        ensures { IfOk result (λ text. text ≡ bytes.items) }
    {
        if bytes.len() <= SHORT {
            Ok(Text::short(&bytes))
        } else {
            Text::long(alloc, bytes)
        }
    }

    /// The bytes as a `Vec`. More than 22 are handed over as they are, without memory.
    pub fn into_vec(self, alloc: Global) -> Result<Vec<u8>, OutOfMemory>
        ensures { IfOk result (λ bytes. bytes.items ≡ self) }
    {
        let Text { held } = self;
        match held {
            Held::Short { length, bytes } => {
                Ok(Vec::from_slice(alloc, &bytes[..usize::from(length)])?)
            }
            Held::Long(bytes) => Ok(Box::into_inner(bytes)),
        }
    }

    /// The bytes with these at their end. Takes memory only where there are more than 22 then.
    pub fn append(self, alloc: Global, bytes: &[u8]) -> Result<Text, OutOfMemory>
        ensures { IfOk result (λ text. text ≡ self ++ bytes.now) }
    {
        let Text { held } = self;
        match held {
            Held::Short {
                length,
                bytes: short,
            } => {
                let used = usize::from(length);
                if bytes.len() <= SHORT - used {
                    return Ok(Text::from_parts(short, used, bytes));
                }
                let mut all = Vec::from_slice(alloc, &short[..used])?;
                all.extend_from_slice(bytes)?;
                Text::long(alloc, all)
            }
            Held::Long(mut all) => {
                all.extend_from_slice(bytes)?;
                Ok(Text {
                    held: Held::Long(all),
                })
            }
        }
    }

    /// The first bytes of an array with these at their end.
    fn from_parts(mut short: [u8; 22], used: usize, bytes: &[u8]) -> Text
        requires { used + length bytes.now ≤ 22 }
        ensures { result ≡ take used short ++ bytes.now }
    {
        let length = used + bytes.len();
        short[used..length].copy_from_slice(bytes);
        Text {
            held: Held::Short {
                length: length as u8,
                bytes: short,
            },
        }
    }

    /// The bytes in order.
    pub fn bytes(&self) -> &[u8]
        ensures { result.now ≡ self.now }
    {
        match &self.held {
            Held::Short { length, bytes } => &bytes[..usize::from(*length)],
            Held::Long(bytes) => bytes.as_slice(),
        }
    }
}
