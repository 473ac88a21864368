ghost use Rattle.std.specs.Prelude.{◌≡◌, ◌<◌, ◌≤◌, [], length, take, IfOk, IsOk, OnErr, OnOk};
ghost use Rattle.std.specs.Io.Buffered.{writer_buffer, writer_contents, writer_inner};
ghost use Rattle.std.specs.Io.KnownBytes.{Keeps, WriteAppends};
ghost use Rattle.io_devices.specs.declared.streams.Rest.TheVariants.{Dropped, Written};
ghost use Rattle.fx_io.specs.Cause.{Rose};
ghost use Rattle.fx_io.specs.Sink.{also_took, untold};

use fx_io::{Failed, OutOfMemory, Sink};
use std::alloc::Global;
use std::io::{BufWriter, Write};

/// A stream of the system (own). The sink tells nothing of what it took, since a writer may begin
/// to tell at any write, and counts the writes that failed or took nothing. A writer that tells
/// what it holds took as much as `put` says.
#[derive(Drop)]
pub struct StreamSink<W: Write + Drop> {
    /// Where the bytes go.
    pub writer: W,
    faults: u64,
    stalls: u64,
}

/// The stream of the program's output.
pub type OutSink<W> = StreamSink<W>;

/// The stream of the program's messages.
pub type ErrSink<W> = StreamSink<W>;

impl<W: Write + Drop> StreamSink<W> {
    /// A sink that writes to this stream.
    pub fn new(writer: W) -> Self
        ensures writer { result.writer ≡ writer }
        ensures faults { result.faults ≡ 0 }
        ensures stalls { result.stalls ≡ 0 }
    {
        StreamSink {
            writer,
            faults: 0,
            stalls: 0,
        }
    }
}

/// What becomes of the bytes that a buffered sink took and has not yet written (own).
#[derive(Clone, Copy)]
pub enum Rest {
    /// They are written.
    Written,
    /// They are never written, so that none of them stands behind bytes that failed.
    Dropped,
}

/// A stream that was ended.
#[derive(Drop)]
pub struct Ended<W: Write + Drop> {
    /// Where the bytes went.
    pub stream: W,
    /// Whether the rest was written, where it was to be.
    pub outcome: Result<(), Failed>,
}

impl<W: Write + Drop> StreamSink<BufWriter<W>> {
    /// A sink that writes to this stream through a buffer, so that lines share calls of the system.
    pub fn with_buffer(alloc: Global, stream: W) -> Result<Self, OutOfMemory>
        ensures stream { IfOk result (λ sink. writer_inner sink.writer ≡ stream) }
        ensures empty { IfOk result (λ sink. writer_buffer sink.writer ≡ []) }
        ensures faults { IfOk result (λ sink. sink.faults ≡ 0) }
        ensures stalls { IfOk result (λ sink. sink.stalls ≡ 0) }
    {
        // allocation: the writer's buffer
        let writer = BufWriter::new(alloc, stream).map_err(|_| OutOfMemory)?;
        Ok(StreamSink::new(writer))
    }

    /// Ends the stream, and fails where the rest was to be written and was not. What a failure
    /// leaves in the buffer is written no more.
    pub fn close(mut self, rest: Rest) -> Ended<W>
        ensures dropped { rest ≡ Dropped → IsOk result.outcome }
        ensures kept { rest ≡ Dropped → result.stream ≡ writer_inner self.writer }
        ensures written { rest ≡ Written → OnOk result.outcome
            (Keeps (writer_contents W.contents self.writer) (W.contents result.stream)) }
    {
        let is_written = match rest {
            Rest::Written => self.writer.flush().is_ok(),
            Rest::Dropped => true,
        };
        let (stream, _) = self.writer.into_parts();
        let outcome = if is_written { Ok(()) } else { Err(Failed) };
        Ended { stream, outcome }
    }
}

impl<W: Write + Drop> Sink for StreamSink<W> {
    ghost taken = { λ _. untold };

    ghost faults = { λ sink. sink.faults };

    ghost stalls = { λ sink. sink.stalls };

    fn put(&mut self, bytes: &[u8]) -> Result<usize, Failed>
        ensures within { IfOk result (λ count. count ≤ length bytes.now) }
        ensures took { IfOk result (λ count. untold ≡ also_took untold (take count bytes.now)) }
        ensures kept { OnErr result (untold ≡ untold) }
        ensures failed { OnErr result (Rose self.old.faults self.new.faults) }
        ensures failed_alone { OnErr result (self.new.stalls ≡ self.old.stalls) }
        ensures stalled { IfOk result (λ count. count ≡ 0 → 0 < length bytes.now →
            Rose self.old.faults self.new.faults) }
        ensures stall_counted { IfOk result (λ count. count ≡ 0 → 0 < length bytes.now →
            Rose self.old.stalls self.new.stalls) }
        ensures moved { IfOk result (λ count. 0 < count →
            (self.new.faults ≡ self.old.faults) × (self.new.stalls ≡ self.old.stalls)) }
        ensures nothing { length bytes.now ≡ 0 →
            IsOk result × (untold ≡ untold) × (self.new.faults ≡ self.old.faults) }
        ensures later { self.old.faults ≤ self.new.faults }

        ensures writes { WriteAppends (W.contents self.old.writer)
            (W.contents self.new.writer) result bytes.now }
    {
        if bytes.is_empty() {
            return Ok(0);
        }
        match self.writer.write(bytes) {
            Ok(0) => {
                self.faults = self.faults.saturating_add(1);
                self.stalls = self.stalls.saturating_add(1);
                Ok(0)
            }
            Ok(count) => Ok(count),
            Err(_) => {
                self.faults = self.faults.saturating_add(1);
                Err(Failed)
            }
        }
    }
}
