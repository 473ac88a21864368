ghost use Rattle.std.specs.Prelude.{◌≡◌, ◌++◌, IfOk};

use fx_io::{OutOfMemory, Text};
use std::alloc::Global;
use std::marker::Model;

/// A piece of the text that is read (own). Contracts see the list of its bytes.
#[derive(Drop)]
pub struct Piece<'a> {
    bytes: &'a [u8],
}

impl<'a> Model for Piece<'a> {
    ghost use Rattle.std.specs.Prelude.{List, ℕ};

    ghost Value = { List ℕ };

    ghost view = { λ piece. piece.bytes.now };
}

impl<'a> Piece<'a> {
    pub fn new(bytes: &'a [u8]) -> Self
        ensures { result ≡ bytes.now }
    {
        Piece { bytes }
    }

    pub fn bytes(&self) -> &'a [u8]
        ensures { result.now ≡ self.now }
    {
        self.bytes
    }
}

/// Where the bytes stand.
#[derive(Drop)]
enum Stored<'a> {
    Lent(Piece<'a>),
    Gathered(Vec<u8>),
}

/// What a value says so far (own): a piece of the text as long as one piece says it all, else bytes
/// gathered from several. Contracts see the list of the bytes.
#[derive(Drop)]
pub struct Said<'a> {
    stored: Stored<'a>,
}

impl<'a> Model for Said<'a> {
    ghost use Rattle.std.specs.Prelude.{List, ℕ};
    ghost use Rattle.mdl_text.specs.inner.ValueBytes.{stored_bytes};

    ghost Value = { List ℕ };

    ghost view = { λ said. stored_bytes said.stored };
}

impl<'a> Said<'a> {
    /// A piece of the text alone.
    pub fn from_piece(bytes: &'a [u8]) -> Self
        ensures { result ≡ bytes.now }
    {
        Said {
            stored: Stored::Lent(Piece::new(bytes)),
        }
    }

    /// Bytes that were gathered.
    pub fn from_vec(bytes: Vec<u8>) -> Self
        ensures { result ≡ bytes.items }
    {
        Said {
            stored: Stored::Gathered(bytes),
        }
    }

    /// The bytes as a `Vec`, to gather more.
    pub fn into_vec(self, alloc: Global) -> Result<Vec<u8>, OutOfMemory>
        ensures { IfOk result (λ bytes. bytes.items ≡ self.entry) }
    {
        let Said { stored } = self;
        match stored {
            Stored::Lent(piece) => Ok(Vec::from_slice(alloc, piece.bytes())?),
            Stored::Gathered(bytes) => Ok(bytes),
        }
    }

    /// The bytes as a text.
    pub fn into_text(self, alloc: Global) -> Result<Text, OutOfMemory>
        ensures { IfOk result (λ text. text ≡ self.entry) }
    {
        let Said { stored } = self;
        match stored {
            Stored::Lent(piece) => Text::copy(alloc, piece.bytes()),
            Stored::Gathered(bytes) => Text::from_vec(alloc, bytes),
        }
    }

    /// The bytes with a piece of the text at their end.
    pub fn with(self, alloc: Global, bytes: &'a [u8]) -> Result<Said<'a>, OutOfMemory>
        ensures { IfOk result (λ said. said ≡ self.entry ++ bytes.now) }
    {
        let mut all = self.into_vec(alloc)?;
        if all.is_empty() {
            return Ok(Said::from_piece(bytes));
        }
        all.extend_from_slice(bytes)?;
        Ok(Said::from_vec(all))
    }
}
