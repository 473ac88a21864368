//! Calls whose standard output ends early.

use crate::calls::{Answer, answer_to};
use crate::cases::Case;
use crate::stuck::PIECE;
use anyhow::{Error, Result};
use std::alloc::Global;
use std::io::Write;
use std::thread::Threads;

/// The most puts of a call.
const MOST: usize = 1000;

/// How standard output ends before the whole is written.
#[derive(Clone, Copy)]
enum End {
    Fails,
    TakesNothing,
}

/// Calls in which one put to standard output fails, or takes nothing, another at each, until none
/// does: writes how many there are of each kind.
pub fn put_ends<R: Threads + Sync, W: Write>(
    rt: &R,
    alloc: Global,
    case: &mut Case,
    words: &str,
    out: &mut W,
) -> Result<()> {
    let whole = answer_to(rt, alloc, case, words)?;
    put_counts(rt, alloc, case, words, whole.out.as_slice(), out)
}

fn put_counts<R: Threads + Sync, W: Write>(
    rt: &R,
    alloc: Global,
    case: &mut Case,
    words: &str,
    whole: &[u8],
    out: &mut W,
) -> Result<()> {
    let failing = beginnings(rt, alloc, case, words, whole, End::Fails)?;
    writeln!(out, "status 4 and a beginning, {failing} puts that fail")?;
    let nothing = beginnings(rt, alloc, case, words, whole, End::TakesNothing)?;
    writeln!(
        out,
        "status 4 and a beginning, {nothing} puts that take nothing"
    )?;
    Ok(())
}

/// How many calls write a beginning, before one writes the whole.
fn beginnings<R: Threads + Sync>(
    rt: &R,
    alloc: Global,
    case: &mut Case,
    words: &str,
    whole: &[u8],
    end: End,
) -> Result<usize> {
    for number in 0..MOST {
        set(case, end, number)?;
        let all = writes(rt, alloc, case, words, whole)?;
        case.reset();
        if all {
            return Ok(number);
        }
    }
    Err(Error::msg("too many puts"))
}

/// At the next call standard output ends behind so many puts.
fn set(case: &mut Case, end: End, number: usize) -> Result<()> {
    match end {
        End::TakesNothing => case.takes = Some(number),
        End::Fails => {
            case.piece = PIECE;
            case.puts.push((number as u64).saturating_add(1))?;
        }
    }
    Ok(())
}

/// Whether the call writes the whole; else it writes a beginning.
fn writes<R: Threads + Sync>(
    rt: &R,
    alloc: Global,
    case: &Case,
    words: &str,
    whole: &[u8],
) -> Result<bool> {
    let answer = answer_to(rt, alloc, case, words)?;
    is_whole(&answer, whole)
}

fn is_whole(answer: &Answer, whole: &[u8]) -> Result<bool> {
    if answer.status == 0 && answer.out.as_slice() == whole {
        Ok(true)
    } else if is_beginning(answer, whole) {
        Ok(false)
    } else {
        Err(Error::msg("no beginning"))
    }
}

/// Whether an answer is that the output was not taken whole.
fn is_beginning(answer: &Answer, whole: &[u8]) -> bool {
    answer.status == 4
        && answer.err.as_slice() == b"cannot write\n".as_slice()
        && is_proper(answer.out.as_slice(), whole)
}

fn is_proper(part: &[u8], whole: &[u8]) -> bool {
    whole.starts_with(part) && part.len() < whole.len()
}
