ghost use Rattle.std.specs.Prelude.{◌≡◌, ℕ, ◌<◌, ◌≤◌, List, length, IfOk, OnOk, IsErrOf, Err};
ghost use Rattle.fx_io.specs.Cause.{Rose};

use crate::fault::OutOfMemory;
use crate::text::Text;
use std::alloc::{AllocError, Global};
use thiserror::Error;

/// Why a file was not fetched (own).
#[derive(Clone, Copy, Debug, PartialEq, Eq, Error)]
pub enum FetchFault {
    /// The shelf failed, or holds nothing under the name.
    #[error("it cannot be read")]
    Failed,
    /// The file has more bytes than the limit.
    #[error("{length} bytes are too many")]
    TooLong { length: u64 },
    /// Memory is wanting.
    #[error("out of memory")]
    OutOfMemory,
}

impl From<OutOfMemory> for FetchFault {
    ghost use Rattle.std.specs.Prelude.{◌≡◌};
    ghost use Rattle.fx_io.specs.declared.shelf.FetchFault.TheVariants.{OutOfMemory};

    ghost from_gives = { λ _ fault. fault ≡ OutOfMemory };

    fn from(_refused: OutOfMemory) -> FetchFault {
        FetchFault::OutOfMemory
    }
}

impl From<AllocError> for FetchFault {
    ghost use Rattle.std.specs.Prelude.{◌≡◌};
    ghost use Rattle.fx_io.specs.declared.shelf.FetchFault.TheVariants.{OutOfMemory};

    ghost from_gives = { λ _ fault. fault ≡ OutOfMemory };

    fn from(_refused: AllocError) -> FetchFault {
        FetchFault::OutOfMemory
    }
}

/// A place that holds files under names (own): a folder, a list in memory.
pub trait Shelf {
    ghost use Rattle.fx_io.specs.Shelf.{Told, Fetched, IsOverlong, AnswersSteadily};

    /// What the shelf holds under a name, where it tells that.
    ghost held: { Self → List ℕ → Told };
    /// How often the shelf has failed. The count never falls.
    ghost faults: { Self → ℕ };
    /// How often a file was longer than the limit. The count never falls.
    ghost overlong: { Self → ℕ };
    /// The shelf tells what it holds and fails at no name that it holds.
    ghost steady: { Self → Type 0 };

    /// The file under a name, whole, of at most `limit` bytes. What is held stays.
    fn fetch(&mut self, alloc: Global, name: &str, limit: u64) -> Result<Text, FetchFault>
        ensures found { IfOk result (λ bytes. Fetched (held self.old name.now) limit bytes) }
        ensures failed { IsErrOf result FetchFault.Failed →
            Rose (faults self.old) (faults self.new) }
        ensures faultless { (IsErrOf result FetchFault.Failed → ⊥) →
            faults self.new ≡ faults self.old }
        ensures too_long { (reported : ℕ) → result ≡ Err (FetchFault.TooLong reported) →
            IsOverlong (held self.old name.now) limit reported }
        ensures too_long_cause { (reported : ℕ) → result ≡ Err (FetchFault.TooLong reported) →
            Rose (overlong self.old) (overlong self.new) }
        ensures none_too_long { OnOk result (overlong self.new ≡ overlong self.old) }
        ensures steadily { steady self.old → AnswersSteadily (held self.old name.now) limit result }
        ensures stays_steady { steady self.old → steady self.new }
        ensures kept { held self.new ≡ held self.old }
        ensures later { faults self.old ≤ faults self.new }
        ensures overlong_later { overlong self.old ≤ overlong self.new };
}
