//! The numbers of kinds, in order of their first operations.
ghost use Rattle.std.specs.Prelude.{◌≡◌, [], IfOk, OnOk, List, length};
ghost use Rattle.hw_sched.specs.Slots.{OperationKind, with_kind, before_kind};
ghost use Rattle.hw_sched.specs.inner.Keys.{key_of};
ghost use Rattle.hw_sched.specs.inner.Cells.{AreKinds};

use crate::keys::KindKey;
use fx_io::OutOfMemory;
use std::alloc::Global;
use std::collections::BTreeMap;

/// The numbers of the kinds so far (own).
#[derive(Drop)]
pub struct KindNumbers {
    by_kind: BTreeMap<KindKey, u64>,
    /// How many kinds there are.
    count: u64,
}

impl KindNumbers {
    /// No kind. It takes no memory.
    pub fn new(alloc: Global) -> KindNumbers
        ensures { AreKinds [] result }
    {
        KindNumbers {
            by_kind: BTreeMap::new(alloc),
            count: 0,
        }
    }

    /// How many kinds there are.
    pub fn count(&self) -> u64
        ensures { result ≡ self.now.count }
    {
        self.count
    }

    /// The number of a kind, the next one if it has none yet.
    pub fn number(&mut self, key: KindKey) -> Result<u64, OutOfMemory>
        ensures is { IfOk result (λ number. (kinds : List OperationKind) (kind : OperationKind)
            → key ≡ key_of kind → AreKinds kinds self.old
            → number ≡ length (before_kind kind (with_kind kinds kind))) }
        ensures kinds { OnOk result ((kinds : List OperationKind) (kind : OperationKind)
            → key ≡ key_of kind → AreKinds kinds self.old
            → AreKinds (with_kind kinds kind) self.new) }
    {
        if let Some(number) = self.by_kind.get(&key).copied() {
            return Ok(number);
        }
        let number = self.count;
        let Some(count) = number.checked_add(1) else {
            // word: how many kinds there are, of 64 bits
            return Err(OutOfMemory);
        };
        let _ = self.by_kind.insert(key, number)?;
        self.count = count;
        Ok(number)
    }
}
