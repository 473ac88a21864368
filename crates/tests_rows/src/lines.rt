//! The lines of standard input, one after another.

use crate::row::Row;
use crate::texts::Texts;
use anyhow::Result;
use std::alloc::Global;
use std::fmt::Debug;
use std::io::{self, BufRead, BufWriter, Input, Print, Write};
use std::thread::Threads;

/// A line that is no text's, and what it is answered with.
#[derive(Drop)]
pub struct Line<'a, R> {
    pub rt: &'a R,
    pub alloc: Global,
    pub texts: &'a Texts,
    pub text: &'a str,
}

impl<'a, R> Line<'a, R> {
    /// The row that the line is.
    pub fn row(&self) -> Result<Row<'a>> {
        self.texts.row(self.alloc, self.text)
    }
}

/// What a program of rows keeps between lines.
pub trait Answers {
    ghost use Rattle.std.specs.Thread.{IsSync};

    /// Takes a line, and writes its answer.
    fn take<R: Threads + Sync, W: Write>(&mut self, line: &Line<'_, R>, out: &mut W) -> Result<()>
        requires { IsSync R.row };
}

/// Reads standard input to its end, and writes the answers to standard output.
pub fn answer_lines<R: Input + Print + Threads + Sync, A: Answers>(
    rt: &R,
    alloc: Global,
    answers: &mut A,
) -> Result<()> {
    let mut out = BufWriter::new(alloc, io::writer(rt))?;
    let mut texts = Texts::new(alloc);
    answer_each(rt, alloc, answers, &mut texts, &mut out)
}

fn answer_each<R: Input + Threads + Sync, A: Answers, W: Write>(
    rt: &R,
    alloc: Global,
    answers: &mut A,
    texts: &mut Texts,
    out: &mut W,
) -> Result<()> {
    for line in rt.reader().lines(alloc) {
        let line = line?;
        answer(rt, alloc, answers, texts, line.as_str(), out)?;
    }
    write_result(out.flush())
}

fn answer<R: Threads + Sync, A: Answers, W: Write>(
    rt: &R,
    alloc: Global,
    answers: &mut A,
    texts: &mut Texts,
    text: &str,
    out: &mut W,
) -> Result<()> {
    if texts.take(alloc, text)? {
        return Ok(());
    }
    let line = Line {
        rt,
        alloc,
        texts,
        text,
    };
    answers.take(&line, out)
}

/// What writing came to.
pub fn write_result(put: io::Result<()>) -> Result<()> {
    Ok(put?)
}

/// Writes a value on a line, as `Debug` tells it.
pub fn put_debug<T: Debug, W: Write>(value: &T, out: &mut W) -> Result<()> {
    write_result(writeln!(out, "{value:?}"))
}
