//! A sink that takes some pieces, and then nothing.

use fx_io::{Failed, Sink};

/// The most bytes that it takes of a piece.
pub const PIECE: usize = 7;

/// It takes beginnings of so many pieces, then no byte, and counts each put of one.
#[derive(Drop)]
pub struct Stuck {
    pub takes: usize,
    pub taken: Vec<u8>,
    pub faults: u64,
    pub stalls: u64,
}

impl Sink for Stuck {
    ghost use Rattle.std.specs.Prelude.{None};

    ghost taken = { λ _. None };

    ghost faults = { λ sink. sink.faults };

    ghost stalls = { λ sink. sink.stalls };

    fn put(&mut self, bytes: &[u8]) -> Result<usize, Failed> {
        if bytes.is_empty() {
            return Ok(0);
        }
        if self.takes == 0 {
            self.faults = self.faults.saturating_add(1);
            self.stalls = self.stalls.saturating_add(1);
            return Ok(0);
        }
        let count = bytes.len().min(PIECE);
        match self.taken.extend_from_slice(&bytes[..count]) {
            Ok(()) => {
                self.takes -= 1;
                Ok(count)
            }
            Err(_) => {
                self.faults = self.faults.saturating_add(1);
                Err(Failed)
            }
        }
    }
}
