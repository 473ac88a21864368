//! What is put in for an element of a block.
ghost use Rattle.std.specs.Prelude.{◌≡◌, None};

use fx_io::OutOfMemory;

/// The nets of an element of a block.
#[derive(Clone, Copy)]
pub struct Entry {
    /// What the element shows, before the pipeline of its block.
    pub net: u32,
    /// The first register of its state, behind which the others stand. An element without a state has
    /// its own net here.
    pub state: u32,
    /// Its multiplication, if it has one of its own.
    pub multiply: Option<u32>,
}

/// The nets of an element that was put in, or want of memory.
pub type Made = Result<Entry, OutOfMemory>;

/// An element without a state and without a multiplication.
pub fn plain(net: u32) -> Entry
    ensures { result ≡ record { net = net; state = net; multiply = None } }
{
    Entry {
        net,
        state: net,
        multiply: None,
    }
}
