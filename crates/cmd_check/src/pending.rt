//! Bytes on their way to a sink, which takes them in large pieces.
ghost use Rattle.std.specs.Prelude.{◌≡◌, [], None};
ghost use Rattle.cmd_check.specs.Handed.{Adds, HasEnded};

use arrayvec::ArrayVec;
use fx_io::{PutFault, Sink, put_all};

/// So many bytes wait at most.
const MOST: usize = 4096;

/// Bytes that wait until they are put, and the fault after which none is put any more (own).
#[derive(Drop)]
pub struct Pending {
    bytes: ArrayVec<u8, MOST>,
    fault: Option<PutFault>,
}

/// Nothing waits, and there was no fault.
pub fn none_pending() -> Pending
    ensures empty { result.bytes.items ≡ [] }
    ensures faultless { result.fault ≡ None }
{
    Pending {
        bytes: ArrayVec::new(),
        fault: None,
    }
}

/// Hands bytes over, which takes no memory.
pub fn put<K: Sink>(out: &mut K, pending: &mut Pending, bytes: &[u8])
    ensures { Adds K.taken K.faults out.old pending.old out.new pending.new bytes.now }
{
    if let Some(_fault) = pending.fault {
        return;
    }
    if let Err(_full) = pending.bytes.try_extend_from_slice(bytes) {
        put_behind(out, pending, bytes);
    }
}

/// Puts what waits, and then bytes for which it left no room.
fn put_behind<K: Sink>(out: &mut K, pending: &mut Pending, bytes: &[u8])
    requires { pending.old.fault ≡ None }
    ensures { Adds K.taken K.faults out.old pending.old out.new pending.new bytes.now }
{
    put_waiting(out, pending);
    if let Some(_fault) = pending.fault {
        return;
    }
    if let Err(_full) = pending.bytes.try_extend_from_slice(bytes) {
        if let Err(fault) = put_all(out, bytes) {
            pending.fault = Some(fault);
        }
    }
}

/// Puts what waits.
fn put_waiting<K: Sink>(out: &mut K, pending: &mut Pending)
    requires { pending.old.fault ≡ None }
    ensures adds { Adds K.taken K.faults out.old pending.old out.new pending.new [] }
    ensures none { pending.new.fault ≡ None → pending.new.bytes.items ≡ [] }
{
    match put_all(out, pending.bytes.as_slice()) {
        Ok(()) => pending.bytes.clear(),
        Err(fault) => pending.fault = Some(fault),
    }
}

/// Puts the last bytes.
pub fn put_last<K: Sink>(out: &mut K, pending: &mut Pending) -> Result<(), PutFault>
    ensures { HasEnded K.taken K.faults out.old pending.old out.new result }
{
    if let Some(fault) = pending.fault {
        return Err(fault);
    }
    put_waiting(out, pending);
    match pending.fault {
        None => Ok(()),
        Some(fault) => Err(fault),
    }
}
