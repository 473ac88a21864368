ghost use Rattle.std.specs.Prelude.{◌≡◌, ℕ, ◌<◌, ◌≤◌, take, Err, None, IfOk, IfSome, IsErrOf, OnOk};
ghost use Rattle.std.specs.IoError.{error_kind};
ghost use Rattle.io_devices.specs.Files.{IsOfFile};
ghost use Rattle.io_devices.specs.inner.Fetch.{IsAnswerTo, IsOwed};
ghost use Rattle.fx_io.specs.Cause.{Rose, counted};
ghost use Rattle.fx_io.specs.Shelf.{AnswersSteadily, Fetched, IsOverlong};

use fx_io::{FetchFault, OutOfMemory, Shelf, Text};
use std::alloc::Global;
use std::fs;
use std::io::{self, ErrorKind, Read};
use std::rt::Files;

/// What opens files to be read (own).
pub trait Opens {
    ghost use Rattle.std.specs.Prelude.{◌≡◌, ℕ, List, Option, Some, IfOk, IfSome};

    /// The bytes of the file under a name, where they are told.
    ghost bytes_of: { Self → List ℕ → Option (List ℕ) };

    /// What reads a file's bytes.
    type Reader: Read + Drop;

    /// The file under a name, from its first byte on.
    fn open(&self, name: &str) -> io::Result<Self::Reader>
        ensures { IfOk result (λ reader. IfSome (bytes_of self.now name.now)
            (λ bytes. Self.Reader.remaining reader ≡ Some bytes)) };
}

/// The files of the system, by their paths. Nothing is told of their bytes.
impl<R: Files> Opens for &R {
    ghost use Rattle.std.specs.Prelude.{None};

    ghost bytes_of = { λ _ _. None };

    type Reader = R::File;

    fn open(&self, name: &str) -> io::Result<R::File> {
        fs::open(*self, name)
    }
}

/// The files that are opened so (own). The shelf tells nothing of what it holds, since it doesn't
/// read a file that is too long to its end, and counts its faults and such files. Of files whose
/// bytes are told `fetch` says `read`.
#[derive(Drop)]
pub struct FileShelf<F: Opens> {
    files: F,
    faults: u64,
    overlong: u64,
}

impl<F: Opens> FileShelf<F> {
    /// A shelf over these files.
    pub fn new(files: F) -> Self
        ensures files { result.files ≡ files }
        ensures faults { result.faults ≡ 0 }
        ensures overlong { result.overlong ≡ 0 }
    {
        FileShelf {
            files,
            faults: 0,
            overlong: 0,
        }
    }
}

impl<F: Opens> Shelf for FileShelf<F> {
    ghost held = { λ _ _. None };

    ghost faults = { λ shelf. shelf.faults };

    ghost overlong = { λ shelf. shelf.overlong };

    ghost steady = { λ _. ⊥ };

    fn fetch(&mut self, alloc: Global, name: &str, limit: u64) -> Result<Text, FetchFault>
        ensures found { IfOk result (λ bytes. Fetched None limit bytes) }
        ensures failed { IsErrOf result FetchFault.Failed → Rose self.old.faults self.new.faults }
        ensures faultless { (IsErrOf result FetchFault.Failed → ⊥) →
            self.new.faults ≡ self.old.faults }
        ensures too_long { (reported : ℕ) → result ≡ Err (FetchFault.TooLong reported) →
            IsOverlong None limit reported }
        ensures too_long_cause { (reported : ℕ) → result ≡ Err (FetchFault.TooLong reported) →
            Rose self.old.overlong self.new.overlong }
        ensures none_too_long { OnOk result (self.new.overlong ≡ self.old.overlong) }
        ensures steadily { ⊥ → AnswersSteadily None limit result }
        ensures stays_steady { ⊥ → ⊥ }
        ensures later { self.old.faults ≤ self.new.faults }
        ensures overlong_later { self.old.overlong ≤ self.new.overlong }

        ensures read { IsOfFile (F.bytes_of self.old.files name.now) limit result }
        ensures same { self.new.files ≡ self.old.files }
    {
        fetched(
            &self.files,
            alloc,
            name,
            limit,
            &mut self.faults,
            &mut self.overlong,
        )
    }
}

/// A file of at most `limit` bytes, whole. A fault is counted, and so is a longer file.
fn fetched<F: Opens>(
    files: &F,
    alloc: Global,
    name: &str,
    limit: u64,
    faults: &mut u64,
    overlong: &mut u64,
) -> Result<Text, FetchFault>
    ensures owed { IsOwed limit faults.old faults.new overlong.old overlong.new result }
    ensures read { IsOfFile (F.bytes_of files.now name.now) limit result }
{
    let read = read_file(files, alloc, name, limit);
    answer_to(alloc, read, limit, faults, overlong)
}

/// What is fetched of a file of which so much was read: want of memory is no fault of the file.
fn answer_to(
    alloc: Global,
    read: io::Result<Vec<u8>>,
    limit: u64,
    faults: &mut u64,
    overlong: &mut u64,
) -> Result<Text, FetchFault>
    ensures owed { IsOwed limit faults.old faults.new overlong.old overlong.new result }
    ensures is { IsAnswerTo (λ fault. error_kind fault ≡ ErrorKind.OutOfMemory) limit read result }
{
    match read {
        Ok(bytes) if bytes.len() as u64 <= limit => match Text::from_vec(alloc, bytes) {
            Ok(text) => Ok(text),
            Err(OutOfMemory) => Err(FetchFault::OutOfMemory),
        },
        Ok(_) => {
            *overlong = overlong.saturating_add(1);
            Err(FetchFault::TooLong { length: limit + 1 })
        }
        Err(fault) if fault.kind() == ErrorKind::OutOfMemory => Err(FetchFault::OutOfMemory),
        Err(_) => {
            *faults = faults.saturating_add(1);
            Err(FetchFault::Failed)
        }
    }
}

/// The first `limit` + 1 bytes of a file, or all of them where it has fewer.
fn read_file<F: Opens>(files: &F, alloc: Global, name: &str, limit: u64) -> io::Result<Vec<u8>>
    ensures { IfOk result (λ bytes. IfSome (F.bytes_of files.now name.now)
        (λ held. bytes.items ≡ take (counted limit) held)) }
{
    let file = files.open(name)?;
    front_of(alloc, file, limit)
}

/// The first `limit` + 1 bytes that a reader gives, or all of them where it gives fewer.
fn front_of<R: Read + Drop>(alloc: Global, reader: R, limit: u64) -> io::Result<Vec<u8>>
    ensures { IfOk result (λ bytes. IfSome (R.remaining reader)
        (λ left. bytes.items ≡ take (counted limit) left)) }
{
    let mut bytes = Vec::new(alloc);
    reader
        .take(limit.saturating_add(1))
        .read_to_end(&mut bytes)?;
    Ok(bytes)
}
