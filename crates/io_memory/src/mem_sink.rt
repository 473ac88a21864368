ghost use Rattle.std.specs.Prelude.{◌≡◌, ◌<◌, ◌≤◌, [], length, take, Some, IfOk, IsOk, IsErr, OnOk, OnErr, ◌↔◌, IsErrOf, IsTrue};
ghost use Rattle.fx_io.specs.Cause.{Rose, counted};
ghost use Rattle.fx_io.specs.Sink.{also_took};
ghost use Rattle.io_memory.specs.Memory.{SinkState, FailsNext, takes_of, stalls_of};

use fx_io::{Failed, Sink};
use std::alloc::{AllocError, Global};
use std::marker::Model;
use thiserror::Error;

/// A sink in memory (own), for tests: it takes at most `piece` bytes a put, has `room` bytes in
/// all, and fails at the puts of nonempty pieces whose numbers, from 1, it was given.
#[derive(Drop)]
pub struct MemSink {
    taken: Vec<u8>,
    failing: Vec<u64>,
    piece: usize,
    room: usize,
    puts: u64,
    faults: u64,
}

impl Model for MemSink {
    ghost use Rattle.std.specs.Prelude.{◌<◌, ◌≤◌, vec_len, vec_capacity};
    ghost use Rattle.io_memory.specs.Memory.{SinkState};

    ghost Value = { SinkState };

    ghost view = { λ sink. record {
      taken = sink.taken.items;
      failing = sink.failing.items;
      piece = sink.piece;
      room = sink.room;
      puts = sink.puts;
      faults = sink.faults;
    } };

    ghost invariant = { λ sink. (0 < sink.piece) × (vec_len sink.taken ≤ sink.room)
        × (sink.room ≤ vec_capacity sink.taken) };
}

/// Why a sink in memory was not made (own).
#[derive(Clone, Copy, Debug, Error)]
pub enum PutSetup {
    /// A piece of no bytes was asked for.
    #[error("a piece of no bytes")]
    Piece,
    /// Memory is wanting.
    #[error("out of memory")]
    OutOfMemory,
}

impl From<AllocError> for PutSetup {
    ghost use Rattle.std.specs.Prelude.{◌≡◌};
    ghost use Rattle.io_memory.specs.declared.mem_sink.PutSetup.TheVariants.{OutOfMemory};

    ghost from_gives = { λ _ fault. fault ≡ OutOfMemory };

    fn from(_refused: AllocError) -> PutSetup {
        PutSetup::OutOfMemory
    }
}

impl MemSink {
    /// An empty sink with room for `room` bytes, taken at once. `failing` has the numbers of the
    /// puts of nonempty pieces that fail, counted from 1.
    pub fn new(
        alloc: Global,
        failing: &[u64],
        piece: usize,
        room: usize,
    ) -> Result<MemSink, PutSetup>
        ensures made { IfOk result (λ sink. sink ≡ record {
          taken = [];
          failing = failing.now;
          piece = piece;
          room = room;
          puts = 0;
          faults = 0;
        }) }
        ensures refused { IsErrOf result PutSetup.Piece ↔ (piece ≡ 0) }
    {
        if piece == 0 {
            return Err(PutSetup::Piece);
        }
        let taken = Vec::with_capacity(alloc, room)?;
        let failing = Vec::from_slice(alloc, failing)?;
        Ok(MemSink {
            taken,
            failing,
            piece,
            room,
            puts: 0,
            faults: 0,
        })
    }

    /// The bytes taken so far.
    pub fn taken(&self) -> &[u8]
        ensures { result.now ≡ self.now.taken }
    {
        self.taken.as_slice()
    }

    fn fails_next(&self) -> bool
        ensures { IsTrue result ↔ FailsNext self.now }
    {
        let number = self.puts.saturating_add(1);
        self.taken.len() >= self.room || self.failing.contains(&number)
    }
}

impl Sink for MemSink {
    ghost taken = { λ sink. Some sink.taken };

    ghost faults = { λ sink. sink.faults };

    ghost stalls = { stalls_of };

    fn put(&mut self, bytes: &[u8]) -> Result<usize, Failed>
        ensures within { IfOk result (λ count. count ≤ length bytes.now) }
        ensures took { IfOk result (λ count.
            Some self.new.taken ≡ also_took (Some self.old.taken) (take count bytes.now)) }
        ensures kept { OnErr result (Some self.new.taken ≡ Some self.old.taken) }
        ensures failed { OnErr result (Rose self.old.faults self.new.faults) }
        ensures failed_alone { OnErr result (stalls_of self.new ≡ stalls_of self.old) }
        ensures stalled { IfOk result (λ count. count ≡ 0 → 0 < length bytes.now →
            Rose self.old.faults self.new.faults) }
        ensures stall_counted { IfOk result (λ count. count ≡ 0 → 0 < length bytes.now →
            Rose (stalls_of self.old) (stalls_of self.new)) }
        ensures moved { IfOk result (λ count. 0 < count →
            (self.new.faults ≡ self.old.faults) × (stalls_of self.new ≡ stalls_of self.old)) }
        ensures nothing { length bytes.now ≡ 0 → IsOk result
            × (Some self.new.taken ≡ Some self.old.taken) × (self.new.faults ≡ self.old.faults) }
        ensures later { self.old.faults ≤ self.new.faults }

        ensures exact { 0 < length bytes.now → (IsErr result ↔ FailsNext self.old) }
        ensures count { IfOk result (λ count. count ≡ takes_of self.old bytes.now) }
        ensures counts { 0 < length bytes.now → self.new.puts ≡ counted self.old.puts }
        ensures fault_counts { OnErr result (self.new.faults ≡ counted self.old.faults) }
        ensures no_fault_counts { OnOk result (self.new.faults ≡ self.old.faults) }
        ensures bounds { (self.new.failing ≡ self.old.failing)
            × (self.new.piece ≡ self.old.piece) × (self.new.room ≡ self.old.room) }
    {
        if bytes.is_empty() {
            return Ok(0);
        }
        let fails = self.fails_next();
        self.puts = self.puts.saturating_add(1);
        if fails {
            self.faults = self.faults.saturating_add(1);
            return Err(Failed);
        }
        let count = self
            .piece
            .min(self.room - self.taken.len())
            .min(bytes.len());
        self.taken.extend_from_slice(&bytes[..count]).unwrap();
        Ok(count)
    }
}
