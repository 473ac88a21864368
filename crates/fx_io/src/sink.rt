ghost use Rattle.std.specs.Prelude.{◌≡◌, ℕ, ◌<◌, ◌≤◌, List, Option, length, take, IfOk, IsOk, OnOk, OnErr, IsErrOf};
ghost use Rattle.fx_io.specs.Cause.{Rose};
ghost use Rattle.fx_io.specs.Sink.{also_took, TookProperPrefix};

use crate::fault::Failed;
use thiserror::Error;

/// A place that takes bytes (own): a stream, a file, a list in memory.
pub trait Sink {
    /// The bytes taken so far, where the sink tells that.
    ghost taken: { Self → Option (List ℕ) };
    /// How often a put failed, or took nothing of a piece that was not empty. The count never
    /// falls.
    ghost faults: { Self → ℕ };
    /// How often a put took nothing of a piece that was not empty.
    ghost stalls: { Self → ℕ };

    /// Takes some of the bytes, from the first on, and gives their number. `Failed` takes nothing.
    fn put(&mut self, bytes: &[u8]) -> Result<usize, Failed>
        ensures within { IfOk result (λ count. count ≤ length bytes.now) }
        ensures took { IfOk result (λ count.
            taken self.new ≡ also_took (taken self.old) (take count bytes.now)) }
        ensures kept { OnErr result (taken self.new ≡ taken self.old) }
        ensures failed { OnErr result (Rose (faults self.old) (faults self.new)) }
        ensures failed_alone { OnErr result (stalls self.new ≡ stalls self.old) }
        ensures stalled { IfOk result (λ count. count ≡ 0 → 0 < length bytes.now →
            Rose (faults self.old) (faults self.new)) }
        ensures stall_counted { IfOk result (λ count. count ≡ 0 → 0 < length bytes.now →
            Rose (stalls self.old) (stalls self.new)) }
        ensures moved { IfOk result (λ count. 0 < count →
            (faults self.new ≡ faults self.old) × (stalls self.new ≡ stalls self.old)) }
        ensures nothing { length bytes.now ≡ 0 →
            IsOk result × (taken self.new ≡ taken self.old) × (faults self.new ≡ faults self.old) }
        ensures later { faults self.old ≤ faults self.new };
}

/// Why not all bytes were taken (own).
#[derive(Clone, Copy, Debug, PartialEq, Eq, Error)]
pub enum PutFault {
    /// A put failed.
    #[error("the sink failed")]
    Failed,
    /// A put took nothing of a piece that was not empty.
    #[error("the sink took nothing")]
    TookNothing,
}

/// Puts all of the bytes, in order (own). Each turn takes at least one byte or ends, and after a
/// fault the sink took a proper prefix of the bytes.
pub fn put_all<K: Sink>(sink: &mut K, bytes: &[u8]) -> Result<(), PutFault>
    ensures whole { OnOk result (K.taken sink.new ≡ also_took (K.taken sink.old) bytes.now) }
    ensures cut { OnErr result (TookProperPrefix (K.taken sink.old) (K.taken sink.new) bytes.now) }
    ensures cause { OnErr result (Rose (K.faults sink.old) (K.faults sink.new)) }
    ensures stalled { IsErrOf result PutFault.TookNothing →
        Rose (K.stalls sink.old) (K.stalls sink.new) }
    ensures failed { IsErrOf result PutFault.Failed → K.stalls sink.new ≡ K.stalls sink.old }
    ensures faultless { OnOk result (K.faults sink.new ≡ K.faults sink.old) }
    ensures later { K.faults sink.old ≤ K.faults sink.new }
{
    let mut done = 0;
    while done < bytes.len() {
        match sink.put(&bytes[done..]) {
            Ok(0) => return Err(PutFault::TookNothing),
            Ok(count) => done += count,
            Err(Failed) => return Err(PutFault::Failed),
        }
    }
    Ok(())
}
