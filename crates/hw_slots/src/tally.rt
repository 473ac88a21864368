//! Numbers by level.
ghost use Rattle.std.specs.Prelude.{◌≡◌, ◌+◌, ◌&&◌, ◌==◌, ℕ, [], IfOk, OnOk, max, if◌then◌else◌};
ghost use Rattle.hw_slots.specs.inner.Tally.{tally_at};

use fx_io::OutOfMemory;
use std::alloc::Global;
use std::collections::BTreeMap;
use std::marker::Model;

/// A number at each level of kinds or of periods, 0 where none was put (own). Contracts see the
/// entries, by owner and level.
#[derive(Drop)]
pub struct Tally {
    by_rung: BTreeMap<(u64, u64), u64>,
}

impl Model for Tally {
    ghost use Rattle.std.specs.Prelude.{ℕ, List};

    ghost Value = { List ((ℕ × ℕ) × ℕ) };

    ghost view = { λ tally. tally.by_rung.entries };
}

impl Tally {
    /// A tally without an entry. It takes no memory.
    pub fn new(alloc: Global) -> Tally
        ensures { result ≡ [] }
    {
        Tally {
            by_rung: BTreeMap::new(alloc),
        }
    }

    /// The number at a level of an owner.
    pub fn get(&self, owner: u64, level: u64) -> u64
        ensures { result ≡ tally_at self.now owner level }
    {
        self.by_rung.get(&(owner, level)).copied().unwrap_or(0)
    }

    /// Puts a number there, in place of any that it had.
    pub fn put(&mut self, owner: u64, level: u64, number: u64) -> Result<(), OutOfMemory>
        ensures { OnOk result ((other later : ℕ) → tally_at self.new other later
            ≡ (if (owner == other) && (level == later) then number
            else tally_at self.old other later)) }
    {
        let _ = self.by_rung.insert((owner, level), number)?;
        Ok(())
    }

    /// Puts a number there, if it is greater than what is there.
    pub fn raise(&mut self, owner: u64, level: u64, number: u64) -> Result<(), OutOfMemory>
        ensures { OnOk result ((other later : ℕ) → tally_at self.new other later
            ≡ (if (owner == other) && (level == later)
            then max (tally_at self.old owner level) number
            else tally_at self.old other later)) }
    {
        let greater = self.get(owner, level).max(number);
        self.put(owner, level, greater)
    }
}

/// The sum of two numbers; one of 2^64 or more is want of memory.
pub fn total(number: u64, other: u64) -> Result<u64, OutOfMemory>
    ensures { IfOk result (λ sum. sum ≡ number + other) }
{
    match number.checked_add(other) {
        Some(sum) => Ok(sum),
        // word: a sum of two counts, of 64 bits
        None => Err(OutOfMemory),
    }
}
