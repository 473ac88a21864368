//! The status with which the program ends.
ghost use Rattle.std.specs.Prelude.{◌≡◌, ◌<◌, ◌⊎◌, codes, IfOk, IsErr};
ghost use Rattle.std.specs.Io.Buffered.{writer_contents, writer_inner};
ghost use Rattle.std.specs.Io.KnownBytes.{Keeps};
ghost use Rattle.io_devices.specs.Ending.{WasPut};

use crate::streams::{Ended, OutSink, Rest};
use fx_io::{Failed, OutOfMemory, Sink, put_all};
use std::io::{BufWriter, Write};

/// What is left of an output that was closed.
#[derive(Drop)]
pub struct CallEnd<W: Write + Drop> {
    /// The status with which the program ends.
    pub status: u8,
    /// Where the bytes went.
    pub stream: W,
}

/// The status of a call that ended with this one, once the rest of its output is written: that of a
/// write fault, which it says, where the call was done and the rest can't be. What a call leaves that
/// wasn't done is written no more: a part of the output could then stand behind one that failed.
pub fn closed<W: Write + Drop, E: Sink>(
    out: OutSink<BufWriter<W>>,
    status: u8,
    err: &mut E,
) -> CallEnd<W>
    ensures refused { 0 < status → result.status ≡ status }
    ensures dropped { 0 < status → result.stream ≡ writer_inner out.writer }
    ensures done { status ≡ 0 → (result.status ≡ 0) ⊎ (result.status ≡ 4) }
    ensures written { result.status ≡ 0 →
        Keeps (writer_contents W.contents out.writer) (W.contents result.stream) }
    ensures silent { result.status ≡ status → err.new ≡ err.old }
    ensures said { status ≡ 0 → result.status ≡ 4 →
        WasPut E.taken E.faults err.old err.new (codes "cannot write\n") }
{
    let rest = if status == 0 {
        Rest::Written
    } else {
        Rest::Dropped
    };
    let Ended { stream, outcome } = out.close(rest);
    let status = match outcome {
        Ok(()) => status,
        Err(Failed) => end(err, b"cannot write\n", 4),
    };
    CallEnd { status, stream }
}

/// The status of a call, or that of want of memory before it, which it says.
pub fn status_of<E: Sink>(answer: Result<u8, OutOfMemory>, err: &mut E) -> u8
    ensures answered { IfOk answer (λ status. result ≡ status) }
    ensures silent { IfOk answer (λ _. err.new ≡ err.old) }
    ensures wanting { IsErr answer → result ≡ 1 }
    ensures said { IsErr answer →
        WasPut E.taken E.faults err.old err.new (codes "out of memory\n") }
{
    match answer {
        Ok(status) => status,
        Err(OutOfMemory) => end(err, b"out of memory\n", 1),
    }
}

/// Says this line, and gives this status. As for every message, a failure changes nothing.
fn end<E: Sink>(err: &mut E, line: &[u8], status: u8) -> u8
    ensures status { result ≡ status }
    ensures said { WasPut E.taken E.faults err.old err.new line.now }
{
    let _ = put_all(err, line);
    status
}
