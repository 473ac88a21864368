//! Where the entries of a table stand.
use fx_io::Sequence;

/// Where entries of a table stand: a block by its place, an output port from 1 and an element from 0.
#[derive(Clone, Copy)]
pub struct Place {
    pub block: u32,
    pub port: u32,
    pub element: u32,
}

pub type Places = Sequence<Place>;
