ghost use Rattle.std.specs.Prelude.{◌≡◌, ℕ, ◌+◌, ◌<◌, ◌≤◌, [], ◌∷◌, length, Some, Err, Contains, IfOk, OnOk, OnErr, IsErrOf, IsTrue, ◌↔◌};
ghost use Rattle.std.specs.Option.{option_copied};
ghost use Rattle.fx_io.specs.Cause.{Rose, counted};
ghost use Rattle.fx_io.specs.Shelf.{Fetched, IsOverlong, AnswersSteadily};
ghost use Rattle.io_memory.specs.Memory.{ShelfState, held_under, told_of, IsSteady, FailsByNumber, FailsFetch};

use crate::held_file::HeldFile;
use fx_io::{FetchFault, OutOfMemory, Shelf, Text};
use std::alloc::Global;
use std::collections::VecDeque;
use std::marker::Model;

/// A shelf in memory (own), for tests: it fails at the fetches whose numbers, from 1, it was
/// given. A name that is added again holds the later bytes.
#[derive(Drop)]
pub struct MemShelf {
    files: VecDeque<HeldFile>,
    failing: Vec<u64>,
    fetches: u64,
    faults: u64,
    overlong: u64,
}

impl Model for MemShelf {
    ghost use Rattle.io_memory.specs.Memory.{ShelfState};

    ghost Value = { ShelfState };

    ghost view = { λ shelf. record {
      files = shelf.files.items;
      failing = shelf.failing.items;
      fetches = shelf.fetches;
      faults = shelf.faults;
      overlong = shelf.overlong;
    } };
}

impl MemShelf {
    /// An empty shelf. `failing` has the numbers of the fetches that fail, counted from 1.
    pub fn new(alloc: Global, failing: &[u64]) -> Result<MemShelf, OutOfMemory>
        ensures { IfOk result (λ shelf. shelf ≡ record {
          files = [];
          failing = failing.now;
          fetches = 0;
          faults = 0;
          overlong = 0;
        }) }
    {
        Ok(MemShelf {
            files: VecDeque::new(alloc),
            failing: Vec::from_slice(alloc, failing)?,
            fetches: 0,
            faults: 0,
            overlong: 0,
        })
    }

    /// Puts bytes under a name, in place of any that it held. Where memory is wanting the shelf
    /// stays as it was.
    pub fn add(&mut self, name: &str, bytes: &[u8]) -> Result<(), OutOfMemory>
        ensures added { OnOk result (self.new ≡ record self.old {
          files = record { name = name.now; bytes = bytes.now } ∷ self.old.files;
        }) }
        ensures kept { OnErr result (self.new ≡ self.old) }
    {
        let alloc = *self.failing.allocator();
        let name = Text::copy(alloc, name.as_bytes())?;
        let bytes = Text::copy(alloc, bytes)?;
        self.files.push_front(HeldFile { name, bytes })?;
        Ok(())
    }

    fn fails_by_number(&self) -> bool
        ensures { IsTrue result ↔ FailsByNumber self.now }
    {
        self.fetches < u64::MAX && is_listed(&self.failing, self.fetches + 1)
    }
}

impl Shelf for MemShelf {
    ghost held = { told_of };

    ghost faults = { λ shelf. shelf.faults };

    ghost overlong = { λ shelf. shelf.overlong };

    ghost steady = { IsSteady };

    fn fetch(&mut self, alloc: Global, name: &str, limit: u64) -> Result<Text, FetchFault>
        ensures found { IfOk result (λ bytes. Fetched (told_of self.old name.now) limit bytes) }
        ensures failed { IsErrOf result FetchFault.Failed → Rose self.old.faults self.new.faults }
        ensures faultless { (IsErrOf result FetchFault.Failed → ⊥) →
            self.new.faults ≡ self.old.faults }
        ensures too_long { (reported : ℕ) → result ≡ Err (FetchFault.TooLong reported) →
            IsOverlong (told_of self.old name.now) limit reported }
        ensures too_long_cause { (reported : ℕ) → result ≡ Err (FetchFault.TooLong reported) →
            Rose self.old.overlong self.new.overlong }
        ensures none_too_long { OnOk result (self.new.overlong ≡ self.old.overlong) }
        ensures steadily { IsSteady self.old →
            AnswersSteadily (told_of self.old name.now) limit result }
        ensures stays_steady { IsSteady self.old → IsSteady self.new }
        ensures kept { told_of self.new ≡ told_of self.old }
        ensures later { self.old.faults ≤ self.new.faults }
        ensures overlong_later { self.old.overlong ≤ self.new.overlong }

        ensures exactly_failed { IsErrOf result FetchFault.Failed ↔ FailsFetch self.old name.now }
        ensures counts { self.new.fetches ≡ counted self.old.fetches }
        ensures same { (self.new.files ≡ self.old.files) × (self.new.failing ≡ self.old.failing) }
    {
        let fails = self.fails_by_number();
        self.fetches = self.fetches.saturating_add(1);
        if fails {
            self.faults = self.faults.saturating_add(1);
            return Err(FetchFault::Failed);
        }
        let Some(bytes) = held_bytes(&self.files, name.as_bytes()) else {
            self.faults = self.faults.saturating_add(1);
            return Err(FetchFault::Failed);
        };
        let length = bytes.len() as u64;
        if length > limit {
            self.overlong = self.overlong.saturating_add(1);
            return Err(FetchFault::TooLong { length });
        }
        Ok(Text::copy(alloc, bytes)?)
    }
}

fn is_listed(numbers: &[u64], number: u64) -> bool
    ensures { IsTrue result ↔ Contains numbers.now number }
{
    numbers.contains(&number)
}

fn held_bytes<'a>(files: &'a VecDeque<HeldFile>, name: &[u8]) -> Option<&'a [u8]>
    ensures { option_copied result ≡ held_under files.now.items name.now }
{
    let file = files.iter().find(|file| file.name.bytes() == name)?;
    Some(file.bytes.bytes())
}
