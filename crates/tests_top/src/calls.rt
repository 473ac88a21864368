//! Calls of the top.

use crate::cases::{Case, ROOM};
use crate::fixed::Fixed;
use crate::stuck::Stuck;
use anyhow::{Error, Result};
use fx_top::{run, sample_with};
use io_memory::{MemShelf, MemSink};
use std::alloc::Global;
use std::thread::Threads;

/// What a call answers.
#[derive(Drop)]
pub struct Answer {
    pub status: u8,
    pub out: Vec<u8>,
    pub err: Vec<u8>,
}

/// What the call of these words answers.
pub fn answer_to<R: Threads + Sync>(
    rt: &R,
    alloc: Global,
    case: &Case,
    line: &str,
) -> Result<Answer> {
    let mut shelf = shelf_of(alloc, case)?;
    let words = words_of(alloc, line)?;
    match case.takes {
        Some(takes) => stuck_answer(rt, alloc, case, words.as_slice(), &mut shelf, takes),
        None => plain_answer(rt, alloc, case, words.as_slice(), &mut shelf),
    }
}

fn plain_answer<R: Threads + Sync>(
    rt: &R,
    alloc: Global,
    case: &Case,
    words: &[String],
    shelf: &mut MemShelf,
) -> Result<Answer> {
    let mut out = sink(alloc, case.puts.as_slice(), case.piece)?;
    let mut err = sink(alloc, &[], ROOM)?;
    let status = run(rt, alloc, words, shelf, &mut out, &mut err);
    answer_of(alloc, status, out.taken(), err.taken())
}

/// The same where standard output takes so many pieces and then nothing.
fn stuck_answer<R: Threads + Sync>(
    rt: &R,
    alloc: Global,
    case: &Case,
    words: &[String],
    shelf: &mut MemShelf,
    takes: usize,
) -> Result<Answer> {
    let mut out = Stuck {
        takes,
        taken: Vec::new(alloc),
        faults: 0,
        stalls: 0,
    };
    let mut err = sink(alloc, case.failing.as_slice(), ROOM)?;
    let status = run(rt, alloc, words, shelf, &mut out, &mut err);
    answer_of(alloc, status, out.taken.as_slice(), err.taken())
}

/// What `sample 1` answers by a bench that tells these bytes.
pub fn bench_answer<R: Threads + Sync>(rt: &R, alloc: Global, tells: &[u8]) -> Result<Answer> {
    let mut bench = Fixed { tells };
    let mut out = sink(alloc, &[], ROOM)?;
    let mut err = sink(alloc, &[], ROOM)?;
    let status = sample_with(rt, alloc, 1, &mut bench, &mut out, &mut err);
    answer_of(alloc, status, out.taken(), err.taken())
}

fn answer_of(alloc: Global, status: u8, out: &[u8], err: &[u8]) -> Result<Answer> {
    let out = out.to_vec(alloc)?;
    let err = err.to_vec(alloc)?;
    Ok(Answer { status, out, err })
}

/// A file by its name.
#[derive(Drop)]
pub struct Held {
    pub name: String,
    pub bytes: Vec<u8>,
}

/// A shelf of the files.
fn shelf_of(alloc: Global, case: &Case) -> Result<MemShelf> {
    let mut shelf = MemShelf::new(alloc, case.fetches.as_slice())?;
    for file in case.files.iter() {
        shelf.add(file.name.as_str(), file.bytes.as_slice())?;
    }
    Ok(shelf)
}

/// The words of a line.
fn words_of(alloc: Global, line: &str) -> Result<Vec<String>> {
    let mut words = Vec::new(alloc);
    for word in line.split_whitespace() {
        words.push(String::from_str(alloc, word)?)?;
    }
    Ok(words)
}

/// A sink in memory.
fn sink(alloc: Global, failing: &[u64], piece: usize) -> Result<MemSink> {
    match MemSink::new(alloc, failing, piece, ROOM) {
        Ok(sink) => Ok(sink),
        Err(_) => Err(Error::msg("no sink")),
    }
}
