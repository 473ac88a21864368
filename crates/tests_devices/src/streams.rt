use fx_io::{FetchFault, OutOfMemory, PutFault, Shelf, Sink, put_all};
use io_devices::{FileShelf, StreamSink, closed, status_of};
use std::io::{self, ErrorKind, Write};
use std::test::Fail;

#[test]
fn files_are_fetched_whole_or_not(rt: HostRuntime) -> Result<(), Fail> {
    std::fs::write(&rt, "held", "four")?;
    let mut shelf = FileShelf::new(&rt);
    let rows = [
        ("held", FetchFault::TooLong { length: 4 }),
        ("absent", FetchFault::Failed),
        (".", FetchFault::Failed),
    ];
    for (name, wanted) in rows {
        let fault = shelf.fetch(rt.alloc(), name, 3).err();
        assert_eq!(rt; fault, Some(wanted), "{name}");
    }
    let held = shelf.fetch(rt.alloc(), "held", 4)?;
    assert_eq!(rt; held.bytes(), b"four".as_slice());
    Ok(())
}

#[test]
fn streams_reach_files(rt: HostRuntime) -> Result<(), Fail> {
    let mut sink = StreamSink::new(std::fs::create(&rt, "written")?);
    assert_eq!(rt; sink.put(b""), Ok(0));
    assert_eq!(rt; put_all(&mut sink, b"two lines\nof text\n"), Ok(()));
    assert_eq!(rt;
        std::fs::read_to_string(&rt, "written")?.as_str(),
        "two lines\nof text\n"
    );
    let mut unwritable = StreamSink::new(std::fs::open(&rt, "written")?);
    assert_eq!(rt; put_all(&mut unwritable, b"x"), Err(PutFault::Failed));
    Ok(())
}

/// A writer that takes at most `piece` bytes a write, and fails once it has `room` bytes.
#[derive(Drop)]
struct Narrow {
    taken: Vec<u8>,
    piece: usize,
    room: usize,
}

impl Write for Narrow {
    fn write(&mut self, bytes: &[u8]) -> io::Result<usize> {
        if self.taken.len() >= self.room {
            return Err(ErrorKind::BrokenPipe.into());
        }
        let count = self.piece.min(bytes.len());
        self.taken.extend_from_slice(&bytes[..count])?;
        Ok(count)
    }

    fn flush(&mut self) -> io::Result<()> {
        Ok(())
    }
}

#[test]
fn streams_may_take_a_part_or_nothing(rt: HostRuntime) -> Result<(), Fail> {
    let rows = [
        (1, 9, Ok(()), "abc"),
        (2, 9, Ok(()), "abc"),
        (0, 9, Err(PutFault::TookNothing), ""),
        (1, 2, Err(PutFault::Failed), "ab"),
    ];
    for (piece, room, wanted, taken) in rows {
        let mut sink = StreamSink::new(Narrow {
            taken: Vec::new(rt.alloc()),
            piece,
            room,
        });
        assert_eq!(rt; put_all(&mut sink, b"abc"), wanted);
        assert_eq!(rt; sink.writer.taken.as_slice(), taken.as_bytes());
    }
    Ok(())
}

/// A writer that fails at its first write, and takes all that is written later.
#[derive(Drop)]
struct Faltering<W: Write + Drop> {
    to: W,
    fails: bool,
}

impl<W: Write + Drop> Write for Faltering<W> {
    fn write(&mut self, bytes: &[u8]) -> io::Result<usize> {
        if self.fails {
            self.fails = false;
            return Err(ErrorKind::BrokenPipe.into());
        }
        self.to.write(bytes)
    }

    fn flush(&mut self) -> io::Result<()> {
        self.to.flush()
    }
}

#[test]
fn what_a_fault_leaves_is_written_no_more(rt: HostRuntime) -> Result<(), Fail> {
    let more = std::vec![in rt.alloc(); b'd'; 8192]?;
    let rows = [
        (b"".as_slice(), Ok(()), 0, "cannot write\n"),
        (more.as_slice(), Err(PutFault::Failed), 4, ""),
    ];
    for (more, put, status, line) in rows {
        let to = Faltering {
            to: std::fs::create(&rt, "left")?,
            fails: true,
        };
        let mut sink = StreamSink::with_buffer(rt.alloc(), to)?;
        let mut err = StreamSink::new(Narrow {
            taken: Vec::new(rt.alloc()),
            piece: 5,
            room: 99,
        });
        assert_eq!(rt; put_all(&mut sink, b"abc"), Ok(()));
        assert_eq!(rt; put_all(&mut sink, more), put);
        assert_eq!(rt; closed(sink, status, &mut err).status, 4);
        assert_eq!(rt; err.writer.taken.as_slice(), line.as_bytes());
        assert_eq!(rt; std::fs::read_to_string(&rt, "left")?.as_str(), "");
    }
    Ok(())
}

#[test]
fn what_ends_a_call_is_said(rt: HostRuntime) -> Result<(), Fail> {
    let rows = [
        (Err(OutOfMemory), 1, "out of memory\n"),
        (Ok(0), 0, ""),
        (Ok(7), 7, ""),
    ];
    for (answer, status, line) in rows {
        let mut err = StreamSink::new(Narrow {
            taken: Vec::new(rt.alloc()),
            piece: 5,
            room: 99,
        });
        assert_eq!(rt; status_of(answer, &mut err), status);
        assert_eq!(rt; err.writer.taken.as_slice(), line.as_bytes());
    }
    Ok(())
}
