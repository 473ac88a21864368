//! What is kept of one element (Simulink reference, Delay).
ghost use Rattle.std.specs.Prelude.{◌≡◌, ◌≤◌, ◌∷◌, [], take, slice_get, IfOk};
ghost use Rattle.dg_sim.specs.Ring.{PastValues};

use crate::ring::Ring;
use fx_io::OutOfMemory;
use std::alloc::Global;
use std::marker::Model;

/// The latest values of one element, as many as there is room for. Contracts see them in a list, the
/// latest first.
#[derive(Drop)]
pub struct Past {
    ring: Ring,
    values: Vec<i128>,
}

impl Model for Past {
    ghost use Rattle.std.specs.Prelude.{◌<◌, ◌≤◌, length};
    ghost use Rattle.dg_sim.specs.Ring.{PastValues, ring_values};

    ghost Value = { PastValues };

    ghost view = { λ past. record {
      room = length past.values.items;
      values = ring_values past.values.items past.ring.head past.ring.filled;
    } };

    ghost invariant = { λ past. (past.ring.head < length past.values.items)
        × (past.ring.filled ≤ length past.values.items) };
}

impl Past {
    /// Nothing yet, with room for so many values.
    ///
    /// # Errors
    /// Want of memory.
    pub fn new(alloc: Global, room: usize) -> Result<Past, OutOfMemory>
        requires { 1 ≤ room }
        ensures { IfOk result (λ past. past ≡ record { room = room; values = [] }) }
    {
        let values: Vec<i128> = vec![in alloc; 0; room]?;
        Ok(Past {
            ring: Ring { head: 0, filled: 0 },
            values,
        })
    }

    /// The value that is so much older than the latest.
    pub fn get(&self, age: usize) -> Option<i128>
        ensures { result ≡ slice_get self.now.values age }
    {
        self.ring.get(self.values.as_slice(), age)
    }

    /// One more value, which takes the place of the oldest where there is no more room.
    pub fn push(&mut self, v: i128)
        ensures { self.new ≡ record {
          room = self.old.room;
          values = take self.old.room (v ∷ self.old.values);
        } }
    {
        self.ring = self.ring.push(self.values.as_mut_slice(), v);
    }

    /// Forgets all values.
    pub fn forget(&mut self)
        ensures { self.new ≡ record { room = self.old.room; values = [] } }
    {
        self.ring = Ring { head: 0, filled: 0 };
    }
}
