//! The program: its words, the system's files and its two streams, handed to `fx_top::run`, whose
//! answer is the exit status.
#![tactic(auto)]

ghost use Rattle.std.specs.Prelude.{◌≡◌, map, string_bytes, IfOk, IsErr};
ghost use Rattle.std.specs.Process.{exit_status};
ghost use Rattle.fx_prog.specs.Program.{IsDone, IsEnded};
ghost use Rattle.fx_top.specs.Call.{files_in};

use fx_io::{OutOfMemory, Shelf, Sink};
use fx_top::run;
use io_devices::{ErrSink, FileShelf, OutSink, closed, status_of, words};
use std::alloc::Global;
use std::env::{self, Args};
use std::io::{self, Write};
use std::process::ExitCode;
use std::thread::Threads;

fn main(rt: HostRuntime) -> ExitCode {
    let mut shelf = FileShelf::new(&rt);
    let mut err = ErrSink::new(rt.stderr());
    let args = env::args(&rt);
    call(&rt, rt.alloc(), args, &mut shelf, rt.stdout(), &mut err)
}

/// What the program does with its arguments, files and streams.
fn call<T: Threads + Sync, S: Shelf, W: Write + Drop, E: Sink>(
    threads: &T,
    alloc: Global,
    args: io::Result<Args>,
    shelf: &mut S,
    stdout: W,
    err: &mut E,
) -> ExitCode
    ensures { IsEnded E.taken E.faults err.old err.new args
        (files_in S.held S.steady S.faults S.overlong shelf.old shelf.new) (exit_status result) }
{
    let answer = match words(alloc, args) {
        Ok(words) => answer(threads, alloc, words.as_slice(), shelf, stdout, err),
        Err(OutOfMemory) => Err(OutOfMemory),
    };
    ExitCode::from(status_of(answer, err))
}

/// The status of `run` over the program's words. The output goes through a buffer, so that lines
/// share calls of the system. Threads are those of the runtime, which has them in `main` alone.
fn answer<T: Threads + Sync, S: Shelf, W: Write + Drop, E: Sink>(
    threads: &T,
    alloc: Global,
    words: &[String],
    shelf: &mut S,
    stdout: W,
    err: &mut E,
) -> Result<u8, OutOfMemory>
    ensures done { IfOk result (λ status. IsDone E.taken E.faults err.old err.new
        (map string_bytes words.now)
        (files_in S.held S.steady S.faults S.overlong shelf.old shelf.new) status) }
    ensures wanting { IsErr result → err.new ≡ err.old }
{
    let mut out = OutSink::with_buffer(alloc, stdout)?;
    let status = run(threads, alloc, words, shelf, &mut out, err);
    Ok(closed(out, status, err).status)
}
