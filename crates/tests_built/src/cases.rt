//! Rows, one after another.

use crate::answers;
use crate::comparing::{Asked, put_comparison};
use anyhow::{Error, Result};
use std::alloc::Global;
use std::io::Write;
use std::thread::Threads;
use tests_rows::{Answers, Line, Row, write_result};

/// The plan and the stimulus that stand now.
#[derive(Drop)]
pub struct Case {
    plan: Vec<u8>,
    stimulus: Vec<u8>,
}

impl Case {
    pub fn new(alloc: Global) -> Case {
        Case {
            plan: Vec::new(alloc),
            stimulus: Vec::new(alloc),
        }
    }

    /// Does what a row says.
    fn answer<W: Write>(&mut self, alloc: Global, row: &Row<'_>, out: &mut W) -> Result<()> {
        match row.command {
            "plan" => keep(&mut self.plan, row.text.as_slice()),
            "stimulus" => keep(&mut self.stimulus, row.text.as_slice()),
            _ => self.tell(alloc, row, out),
        }
    }

    /// Prints the words of a row on a line, and then what is told of its model.
    fn tell<W: Write>(&self, alloc: Global, row: &Row<'_>, out: &mut W) -> Result<()> {
        put_words(row.words.as_slice(), out)?;
        let (model, plan) = (row.text.as_slice(), self.plan.as_slice());
        match row.command {
            "built" => {
                let asked = Asked::Run(self.stimulus.as_slice());
                put_comparison(alloc, model, plan, asked, out)
            }
            "held" => put_comparison(alloc, model, plan, Asked::Held, out),
            "tidied" => put_comparison(alloc, model, plan, Asked::Tidied, out),
            "scheduled" => answers::answer(alloc, model, plan, out),
            _ => Err(Error::msg("no command")),
        }
    }
}

/// Keeps a text in the place of another.
fn keep(kept: &mut Vec<u8>, text: &[u8]) -> Result<()> {
    kept.clear();
    kept.extend_from_slice(text)?;
    Ok(())
}

impl Answers for Case {
    fn take<R: Threads + Sync, W: Write>(&mut self, line: &Line<'_, R>, out: &mut W) -> Result<()> {
        self.answer(line.alloc, &line.row()?, out)
    }
}

/// Prints the words of a row on a line.
fn put_words<W: Write>(words: &[&str], out: &mut W) -> Result<()> {
    for (place, word) in words.iter().enumerate() {
        if place > 0 {
            out.write_all(b" ")?;
        }
        out.write_all(word.as_bytes())?;
    }
    write_result(out.write_all(b"\n"))
}
